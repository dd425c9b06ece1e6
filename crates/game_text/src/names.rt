//! The names of small games (Siegel, Combinatorial Game Theory).

ghost use Rattle.std.specs.Prelude.{◌≡◌, ◌<◌, ◌∷◌, ◌↔◌, [], ℕ, List, cond, nat_eq, nat_lt, neg_ℤ, ◌<ℤ◌, pos, length, slice_index, IfOk, IsTrue, MatchOption, None, Some};
ghost use Rattle.indexmap.specs.IndexMap.{get};
ghost use Rattle.short_games.specs.Number.{IsNumberTree, number_tree};
ghost use Rattle.short_games.specs.Tree.{tree_at, AreDistinct};
ghost use Rattle.game_store.specs.Forms.{IsOptions};
ghost use Rattle.game_canon.specs.inner.Changes.{AreClosed};
ghost use Rattle.game_text.specs.NamedText.{name, nimber, nimber_name};
ghost use Rattle.game_text.specs.inner.Written.{text_at, AreFound, AreNimbers, HasOptionTexts, HasText, IsAmong, IsNamedPair, IsPairName, IsSwitchName, IsSwitchPair, IsWithin};

use crate::numbers::number_text;
use crate::texts::{Texts, text_of};
use dyadic_num::Dyadic;
use game_store::{Form, GameId, Store};
use std::alloc::{AllocError, Global};

/// Whether there is no nimber yet, and the number is 0.
fn is_first(nimbers: &[GameId], x: Dyadic) -> bool
    ensures { IsTrue result ↔ ((length nimbers.now ≡ 0) × (x ≡ pos 0)) }
{
    nimbers.is_empty() && x.units() == 0
}

/// Whether the options of both sides are all nimbers so far.
fn are_nimbers(left: &[GameId], right: &[GameId], nimbers: &[GameId]) -> bool
    ensures { IsTrue result ↔ ((left.now ≡ nimbers.now) × (right.now ≡ nimbers.now)) }
{
    left == nimbers && right == nimbers
}

/// Whether the form is the nimber of the number of nimbers in the list, which are those of all smaller numbers.
fn is_next_nimber(store: &Store, id: GameId, nimbers: &[GameId]) -> bool
    requires id { id < length store.now }
    requires nimbers { AreNimbers store.now nimbers.now }
    ensures { IsTrue result ↔ (tree_at store.now id ≡ nimber (length nimbers.now)) }
{
    match store.node(id) {
        Form::Number(x) => is_first(nimbers, x),
        Form::Options { left, right } => are_nimbers(left, right, nimbers),
    }
}

/// The ids of the nimbers among the forms, of which options come before what they are options of: those of 0, of 1 and
/// so on.
pub(crate) fn nimbers_of(
    alloc: Global,
    store: &Store,
    ids: &[GameId],
) -> Result<Vec<GameId>, AllocError>
    requires distinct { AreDistinct store.now }
    requires closed { AreClosed store.now ids.now }
    ensures { IfOk result (λ found. AreFound store.now ids.now (length ids.now) found.items) }
{
    let _count = store.len();
    let mut found = Vec::new(alloc);
    for id in ids {
        if is_next_nimber(store, *id, &found) {
            found.push(*id)?;
        }
    }
    Ok(found)
}

/// Whether the id is that of the nimber of this number.
fn is_nimber(nimbers: &[GameId], id: GameId, number: usize) -> bool
    ensures { IsTrue result ↔ ((number < length nimbers.now)
        × (slice_index nimbers.now number ≡ id)) }
{
    number < nimbers.len() && nimbers[number] == id
}

/// The name of the nimber of a number.
fn nimber_text(alloc: Global, number: usize) -> Result<Vec<u8>, AllocError>
    ensures { IfOk result (λ t. t.items ≡ nimber_name number) }
{
    let mut text = String::new(alloc);
    if number < 2 {
        write!(text, "*")?;
        return Ok(text.into_bytes());
    }
    write!(text, "*{number}")?;
    Ok(text.into_bytes())
}

/// The number of a form that is one.
fn number_at(store: &Store, id: GameId) -> Option<Dyadic>
    requires { id < length store.now }
    ensures { MatchOption result (IsNumberTree (tree_at store.now id) → ⊥)
        (λ u. tree_at store.now id ≡ number_tree u) }
{
    match store.node(id) {
        Form::Number(x) => Some(x),
        Form::Options { .. } => None,
    }
}

/// Whether these are a number above 0 and its negative.
fn are_opposite(x: Dyadic, y: Dyadic) -> bool
    ensures { IsTrue result ↔ ((pos 0 <ℤ x) × (y ≡ neg_ℤ x)) }
{
    x.units() > 0 && y.units() == x.neg().units()
}

/// The name of a switch, where the one form is a number above 0 and the other its negative.
fn switch_name(
    alloc: Global,
    store: &Store,
    left: GameId,
    right: GameId,
) -> Result<Option<Vec<u8>>, AllocError>
    requires left { left < length store.now }
    requires right { right < length store.now }
    ensures { IfOk result (λ found. MatchOption found
        (IsSwitchPair (tree_at store.now left) (tree_at store.now right) → ⊥)
        (λ t. IsSwitchName (tree_at store.now left) (tree_at store.now right) t.items)) }
{
    let Some(x) = number_at(store, left) else {
        return Ok(None);
    };
    let Some(y) = number_at(store, right) else {
        return Ok(None);
    };
    if !are_opposite(x, y) {
        return Ok(None);
    }
    let number = number_text(alloc, x)?;
    let mut text = Vec::new(alloc);
    text.extend_from_slice(b"+-")?;
    text.extend_from_slice(number.as_bytes())?;
    Ok(Some(text))
}

/// Whether the texts of the forms are these.
fn are_texts(texts: &Texts, left: GameId, right: GameId, first: &[u8], second: &[u8]) -> bool
    requires left { IsWithin texts.now.bytes.items (get nat_eq texts.now.spans left) }
    requires right { IsWithin texts.now.bytes.items (get nat_eq texts.now.spans right) }
    ensures { IsTrue result ↔ ((text_at texts.now.bytes.items
        (get nat_eq texts.now.spans left) ≡ first.now)
        × (text_at texts.now.bytes.items (get nat_eq texts.now.spans right) ≡ second.now)) }
{
    text_of(texts, left) == first && text_of(texts, right) == second
}

/// The name of a form with one option on each side: up, down or a switch.
fn pair_name(
    alloc: Global,
    store: &Store,
    texts: &Texts,
    left: GameId,
    right: GameId,
) -> Result<Option<Vec<u8>>, AllocError>
    requires left { left < length store.now }
    requires right { right < length store.now }
    requires left_text { HasText store.now texts.now.bytes.items (get nat_eq texts.now.spans) left }
    requires right_text { HasText store.now texts.now.bytes.items
        (get nat_eq texts.now.spans) right }
    ensures { IfOk result (λ found. MatchOption found
        (IsNamedPair (tree_at store.now left) (tree_at store.now right) → ⊥)
        (λ t. IsPairName (tree_at store.now left) (tree_at store.now right) t.items)) }
{
    let _count = store.len();
    if are_texts(texts, left, right, b"0", b"*") {
        return Ok(Some(Vec::from_slice(alloc, b"^")?));
    }
    if are_texts(texts, left, right, b"*", b"0") {
        return Ok(Some(Vec::from_slice(alloc, b"v")?));
    }
    switch_name(alloc, store, left, right)
}

/// The name of a form with these options, where it has one.
pub(crate) fn form_name(
    alloc: Global,
    store: &Store,
    texts: &Texts,
    nimbers: &[GameId],
    id: GameId,
    left: &[GameId],
    right: &[GameId],
) -> Result<Option<Vec<u8>>, AllocError>
    requires id { id < length store.now }
    requires distinct { AreDistinct store.now }
    requires form { IsOptions store.now id left.now right.now }
    requires options { HasOptionTexts store.now texts.now.bytes.items
        (get nat_eq texts.now.spans) id }
    requires nimbers { AreNimbers store.now nimbers.now }
    requires among { IsAmong store.now nimbers.now id }
    ensures { IfOk result (λ found. MatchOption found (name (tree_at store.now id) ≡ None)
        (λ t. name (tree_at store.now id) ≡ Some t.items)) }
{
    let count = left.len();
    if is_nimber(nimbers, id, count) {
        return Ok(Some(nimber_text(alloc, count)?));
    }
    if count == 1 && right.len() == 1 {
        return pair_name(alloc, store, texts, left[0], right[0]);
    }
    Ok(None)
}
