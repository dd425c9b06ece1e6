//! Writing.

ghost use Rattle.std.specs.Prelude.{◌≡◌, ◌<◌, ◌≤◌, ◌^◌, ℕ, List, nat_eq, length, slice_index, IfOk, IfErr, OnOk};
ghost use Rattle.indexmap.specs.IndexMap.{get};
ghost use Rattle.short_games.specs.Tree.{Tree, tree_at, AreDistinct};
ghost use Rattle.game_store.specs.Forms.{IsOptions};
ghost use Rattle.game_canon.specs.inner.Changes.{AreClosed};
ghost use Rattle.game_text.specs.NamedText.{named_depth, named_text};
ghost use Rattle.game_text.specs.inner.Nesting.{braces_after};
ghost use Rattle.game_text.specs.Refusals.{IsWriteRefusal};
ghost use Rattle.game_text.specs.inner.Written.{AreFound, AreNimbers, AreWritten, HasOptionTexts, HasText, IsAdded, IsAmong, IsTooLong};

use crate::errors::WriteError;
use crate::names::{form_name, nimbers_of};
use crate::numbers::number_text;
use crate::text::Text;
use crate::texts::{Texts, braces, keep, text_of};
use game_canon::reachable;
use game_store::{Form, GameId, Store};
use indexmap::IndexMap;
use std::alloc::{AllocError, Global};

/// The most braces that may be open at once.
pub(crate) const MOST_OPEN: usize = 1000;

/// The text of a form with these options, whose texts are kept.
fn options_text(
    alloc: Global,
    store: &Store,
    texts: &Texts,
    nimbers: &[GameId],
    id: GameId,
    left: &[GameId],
    right: &[GameId],
    limit: usize,
) -> Result<Vec<u8>, WriteError>
    requires id { id < length store.now }
    requires distinct { AreDistinct store.now }
    requires form { IsOptions store.now id left.now right.now }
    requires options { HasOptionTexts store.now texts.now.bytes.items
        (get nat_eq texts.now.spans) id }
    requires nimbers { AreNimbers store.now nimbers.now }
    requires among { IsAmong store.now nimbers.now id }
    ensures text { IfOk result (λ t. t.items ≡ named_text (tree_at store.now id)) }
    ensures refusal { IfErr result (λ e. IsTooLong (tree_at store.now id) limit e) }
{
    let _count = store.len();
    if let Some(name) = form_name(alloc, store, texts, nimbers, id, left, right)? {
        return Ok(name);
    }
    let text = braces(alloc, texts, left, right)?;
    if limit < text.len() {
        return Err(WriteError::Long);
    }
    Ok(text)
}

/// The text of a form of which the options' texts are kept.
fn form_text(
    alloc: Global,
    store: &Store,
    texts: &Texts,
    nimbers: &[GameId],
    id: GameId,
    limit: usize,
) -> Result<Vec<u8>, WriteError>
    requires id { id < length store.now }
    requires options { HasOptionTexts store.now texts.now.bytes.items
        (get nat_eq texts.now.spans) id }
    requires nimbers { AreNimbers store.now nimbers.now }
    requires among { IsAmong store.now nimbers.now id }
    ensures text { IfOk result (λ t. t.items ≡ named_text (tree_at store.now id)) }
    ensures refusal { IfErr result (λ e. IsTooLong (tree_at store.now id) limit e) }
{
    match store.node(id) {
        Form::Number(x) => Ok(number_text(alloc, x)?.into_bytes()),
        Form::Options { left, right } => {
            options_text(alloc, store, texts, nimbers, id, left, right, limit)
        }
    }
}

/// Keeps the text of a form of which the options' texts are kept.
fn write_form(
    alloc: Global,
    store: &Store,
    texts: &mut Texts,
    nimbers: &[GameId],
    id: GameId,
    limit: usize,
) -> Result<(), WriteError>
    requires id { id < length store.now }
    requires options { HasOptionTexts store.now texts.old.bytes.items
        (get nat_eq texts.old.spans) id }
    requires nimbers { AreNimbers store.now nimbers.now }
    requires among { IsAmong store.now nimbers.now id }
    ensures added { OnOk result (IsAdded store.now id texts.old.bytes.items
        (get nat_eq texts.old.spans) texts.new.bytes.items (get nat_eq texts.new.spans)) }
    ensures refusal { IfErr result (λ e. IsTooLong (tree_at store.now id) limit e) }
{
    let text = form_text(alloc, store, texts, nimbers, id, limit)?;
    keep(texts, id, &text)?;
    Ok(())
}

/// Keeps the texts of the forms, of which options come before what they are options of.
fn write_all(
    alloc: Global,
    store: &Store,
    texts: &mut Texts,
    nimbers: &[GameId],
    ids: &[GameId],
    limit: usize,
) -> Result<(), WriteError>
    requires distinct { AreDistinct store.now }
    requires closed { AreClosed store.now ids.now }
    requires found { AreFound store.now ids.now (length ids.now) nimbers.now }
    ensures written { OnOk result (AreWritten store.now ids.now
        (length ids.now) texts.new.bytes.items (get nat_eq texts.new.spans)) }
    ensures refusal { IfErr result (λ e. (j : ℕ) × (j < length ids.now)
        × IsTooLong (tree_at store.now (slice_index ids.now j)) limit e) }
{
    for id in ids {
        write_form(alloc, store, texts, nimbers, *id, limit)?;
    }
    Ok(())
}

/// The named text of a form, and those of all that it is made of.
fn named_texts(alloc: Global, store: &Store, id: GameId, limit: usize) -> Result<Texts, WriteError>
    requires { id < length store.now }
    ensures kept { IfOk result (λ texts. HasText store.now texts.bytes.items
        (get nat_eq texts.spans) id) }
    ensures refusal { IfErr result (λ e. IsWriteRefusal (tree_at store.now id) limit e) }
{
    let _count = store.len();
    let ids = reachable(alloc, store, id)?;
    let forms: &[GameId] = &ids;
    let nimbers = nimbers_of(alloc, store, forms)?;
    let mut texts = Texts {
        bytes: Vec::new(alloc),
        spans: IndexMap::new(alloc),
    };
    write_all(alloc, store, &mut texts, &nimbers, forms, limit)?;
    Ok(texts)
}

/// How many braces are open behind a byte.
fn braces_behind(count: usize, byte: u8) -> usize
    requires { count < 2 ^ 63 }
    ensures { result ≡ braces_after count byte }
{
    match byte {
        b'{' => count + 1,
        b'}' => count.saturating_sub(1),
        _ => count,
    }
}

/// How deep the braces of a form's text nest.
fn nesting(text: &[u8]) -> usize
    ensures { (G : Tree) → text.now ≡ named_text G → result ≡ named_depth G }
{
    let mut open = 0;
    let mut deepest = 0;
    for byte in text {
        open = braces_behind(open, *byte);
        deepest = deepest.max(open);
    }
    deepest
}

/// The text, unless it has more than `limit` bytes or its braces nest deeper than 1,000.
fn fitting(alloc: Global, text: &[u8], limit: usize) -> Result<Text, WriteError>
    ensures text { IfOk result (λ t. t ≡ text.now) }
    ensures within { (G : Tree) → text.now ≡ named_text G
        → IfOk result (λ t. (length t ≤ limit) × (named_depth G ≤ 1000)) }
    ensures refusal { (G : Tree) → text.now ≡ named_text G
        → IfErr result (λ e. IsWriteRefusal G limit e) }
{
    if text.len() > limit {
        return Err(WriteError::Long);
    }
    if nesting(text) > MOST_OPEN {
        return Err(WriteError::Deep);
    }
    Ok(Text::from_slice(alloc, text)?)
}

/// The named text of a form: a number is written in decimal or as a fraction in lowest terms, the nimber of 1 as `*` and
/// that of a greater number as `*` and the number, up as `^`, down as `v`, and the switch of a number above 0 as `+-` and
/// the number. Any other form is `{`, the named texts of its Left options, `|`, those of its Right options and `}`, on
/// each side in the order of their bytes and with commas between them. `Long` where it has more than `limit` bytes, and
/// else `Deep` where its braces nest deeper than 1,000.
pub fn write(alloc: Global, store: &Store, id: GameId, limit: usize) -> Result<Text, WriteError>
    requires { id < length store.now }
    ensures text { IfOk result (λ t. t ≡ named_text (tree_at store.now id)) }
    ensures within { IfOk result (λ t. (length t ≤ limit)
        × (named_depth (tree_at store.now id) ≤ 1000)) }
    ensures refusal { IfErr result (λ e. IsWriteRefusal (tree_at store.now id) limit e) }
{
    let texts = named_texts(alloc, store, id, limit)?;
    fitting(alloc, text_of(&texts, id), limit)
}
