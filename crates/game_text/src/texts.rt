//! The texts of forms, kept one behind another.

ghost use Rattle.std.specs.Prelude.{◌≡◌, ◌++◌, ◌∷◌, ℕ, List, nat_eq, map, IfOk, OnOk};
ghost use Rattle.std.specs.List.Sorted.{IsPermutation, IsSortedBy};
ghost use Rattle.indexmap.specs.IndexMap.{get};
ghost use Rattle.short_games.specs.Text.{comma};
ghost use Rattle.short_games.specs.TextOrder.{lesser_text};
ghost use Rattle.game_text.specs.inner.Written.{IsAppended, IsWithin, AreKept, IsSideText, IsBracesText, text_at};
ghost use Rattle.game_text.specs.NamedText.{joined};

use game_store::GameId;
use indexmap::IndexMap;
use std::alloc::{AllocError, Global};

/// Where a text begins and ends.
#[derive(Clone, Copy)]
pub(crate) struct Span {
    pub(crate) start: usize,
    pub(crate) end: usize,
}

/// Texts one behind another, and for ids where their texts stand.
#[derive(Drop)]
pub(crate) struct Texts {
    pub(crate) bytes: Vec<u8>,
    pub(crate) spans: IndexMap<GameId, Span>,
}

/// The text of an id.
pub(crate) fn text_of(texts: &Texts, id: GameId) -> &[u8]
    requires { IsWithin texts.now.bytes.items (get nat_eq texts.now.spans id) }
    ensures { result.now ≡ text_at texts.now.bytes.items (get nat_eq texts.now.spans id) }
{
    match texts.spans.get(&id).copied() {
        Some(span) => &texts.bytes[span.start..span.end],
        // The text of an option is written before that of the form.
        None => unreachable!(),
    }
}

/// The texts of the ids in the order of their bytes.
fn sorted_texts<'a>(
    alloc: Global,
    texts: &'a Texts,
    ids: &[GameId],
) -> Result<Vec<&'a [u8]>, AllocError>
    requires { AreKept texts.now.bytes.items (get nat_eq texts.now.spans) ids.now }
    ensures permutation { IfOk result (λ v. IsPermutation
        (map (λ id. text_at texts.now.bytes.items (get nat_eq texts.now.spans id)) ids.now)
        (map (λ t. t.now) v.items)) }
    ensures sorted { IfOk result (λ v. IsSortedBy lesser_text (map (λ t. t.now) v.items)) }
{
    let mut found = Vec::new(alloc);
    for id in ids {
        found.push(text_of(texts, *id))?;
    }
    found.sort_unstable();
    Ok(found)
}

/// Appends a comma and a text.
fn push_further(text: &mut Vec<u8>, part: &[u8]) -> Result<(), AllocError>
    ensures { OnOk result (text.new.items ≡ text.old.items ++ comma ∷ part.now) }
{
    text.push(b',')?;
    text.extend_from_slice(part)?;
    Ok(())
}

/// Appends the texts with commas between them.
fn push_joined(text: &mut Vec<u8>, parts: &[&[u8]]) -> Result<(), AllocError>
    ensures { OnOk result (text.new.items ≡ text.old.items ++ joined (map (λ t. t.now) parts.now)) }
{
    let [first, others @ ..] = parts else {
        return Ok(());
    };
    text.extend_from_slice(first)?;
    for part in others {
        push_further(text, part)?;
    }
    Ok(())
}

/// Appends the texts of the ids, in the order of their bytes and with commas between them.
fn push_side(
    alloc: Global,
    text: &mut Vec<u8>,
    texts: &Texts,
    ids: &[GameId],
) -> Result<(), AllocError>
    requires { AreKept texts.now.bytes.items (get nat_eq texts.now.spans) ids.now }
    ensures { OnOk result ((t : List ℕ) × IsSideText texts.now.bytes.items
        (get nat_eq texts.now.spans) ids.now t × (text.new.items ≡ text.old.items ++ t)) }
{
    let parts = sorted_texts(alloc, texts, ids)?;
    push_joined(text, &parts)?;
    Ok(())
}

/// The text of a form with these options.
pub(crate) fn braces(
    alloc: Global,
    texts: &Texts,
    left: &[GameId],
    right: &[GameId],
) -> Result<Vec<u8>, AllocError>
    requires left { AreKept texts.now.bytes.items (get nat_eq texts.now.spans) left.now }
    requires right { AreKept texts.now.bytes.items (get nat_eq texts.now.spans) right.now }
    ensures { IfOk result (λ t. IsBracesText texts.now.bytes.items
        (get nat_eq texts.now.spans) left.now right.now t.items) }
{
    let mut text = Vec::new(alloc);
    text.push(b'{')?;
    push_side(alloc, &mut text, texts, left)?;
    text.push(b'|')?;
    push_side(alloc, &mut text, texts, right)?;
    text.push(b'}')?;
    Ok(text)
}

/// Keeps the text of an id behind the others.
pub(crate) fn keep(texts: &mut Texts, id: GameId, text: &[u8]) -> Result<(), AllocError>
    ensures { OnOk result (IsAppended texts.old.bytes.items
        (get nat_eq texts.old.spans) id text.now texts.new.bytes.items
        (get nat_eq texts.new.spans)) }
{
    let start = texts.bytes.len();
    texts.bytes.extend_from_slice(text)?;
    let end = texts.bytes.len();
    texts.spans.insert(id, Span { start, end })?;
    Ok(())
}
