//! Games that are read by their names.

ghost use Rattle.std.specs.Prelude.{◌≡◌, ◌<◌, ◌≤◌, ◌↔◌, ◌+◌, ◌-◌, ◌<ℤ◌, ◌^◌, ℕ, ℤ, pos, neg_ℤ, length, take, drop, IfOk, IfErr, OnOk, IsTrue, MatchOption, slice_index};
ghost use Rattle.std.specs.Fmt.{decimal};
ghost use Rattle.short_games.specs.Number.{number_tree};
ghost use Rattle.short_games.specs.Tree.{tree_at};
ghost use Rattle.game_store.specs.Meaning.{Extends, IsIdOf};
ghost use Rattle.short_games.specs.Examples.{choice};
ghost use Rattle.game_text.specs.NamedText.{down, nimber, up};
ghost use Rattle.game_text.specs.Reading.{IsDigitByte, IsNimberDigits, ReadsNimber, ReadsSwitch, switch_below};
ghost use Rattle.game_text.specs.Reading.Outcome.{reads};
ghost use Rattle.game_text.specs.inner.Machine.{EndsDigitsAt, IsFoundBy, IsRefusedBy, IsTaken};
ghost use Rattle.game_text.specs.inner.Refusals.{IsFormRefusal};
ghost use Rattle.game_text.specs.inner.Written.{AreNimbers};

use crate::errors::ReadError;
use crate::numbers::{number_of_text, parsed_count};
use crate::reading::{is_number_byte, run_end};
use dyadic_num::Dyadic;
use game_canon::canonical;
use game_store::{GameId, Store};
use std::alloc::{AllocError, Global};

/// The greatest number whose nimber has a name.
const MOST_NIMBER: u64 = 4_294_967_295;

/// A game that was read, and the place behind it.
#[derive(Clone, Copy)]
pub(crate) struct Found {
    pub(crate) id: GameId,
    pub(crate) end: usize,
}

/// Whether the byte is a digit.
fn is_digit(byte: u8) -> bool
    ensures { IsTrue result ↔ IsDigitByte byte }
{
    byte.is_ascii_digit()
}

/// Where the longest run of digits ends.
fn digits_end(text: &[u8], first: usize) -> usize
    requires { first ≤ length text.now }
    ensures { EndsDigitsAt text.now first result }
{
    let mut at = first;
    'running: while at < text.len() {
        if !is_digit(text[at]) {
            return at;
        }
        at += 1;
    }
    at
}

/// Whether these are the digits of the number.
fn are_digits_of(alloc: Global, digits: &[u8], number: u64) -> Result<bool, AllocError>
    ensures { IfOk result (λ same. IsTrue same ↔ (digits.now ≡ decimal number)) }
{
    let mut text = String::new(alloc);
    write!(text, "{number}")?;
    Ok(text.as_bytes() == digits)
}

/// The number of which the digits name the nimber.
fn nimber_number(alloc: Global, digits: &[u8]) -> Result<Option<u64>, AllocError>
    ensures { IfOk result (λ found. MatchOption found ((n : ℕ) → IsNimberDigits n digits.now → ⊥)
        (λ n. IsNimberDigits n digits.now)) }
{
    let Some(number) = parsed_count(digits) else {
        return Ok(None);
    };
    if number < 2 {
        return Ok(None);
    }
    if number > MOST_NIMBER {
        return Ok(None);
    }
    if are_digits_of(alloc, digits, number)? {
        Ok(Some(number))
    } else {
        Ok(None)
    }
}

/// Makes the nimber of the number of those in the list, and adds it to them.
fn add_nimber(store: &mut Store, nimbers: &mut Vec<GameId>) -> Result<(), AllocError>
    requires some { 0 < length nimbers.old.items }
    requires nimbers { AreNimbers store.old nimbers.old.items }
    ensures nimbers { OnOk result (AreNimbers store.new nimbers.new.items) }
    ensures one { OnOk result (length nimbers.new.items ≡ length nimbers.old.items + 1) }
    ensures kept { Extends store.old store.new }
{
    let id = store.intern(nimbers, nimbers)?;
    let _count = store.len();
    nimbers.push(id)?;
    Ok(())
}

/// The nimber of a number, by those of all lesser ones.
fn built_nimber(alloc: Global, store: &mut Store, number: u64) -> Result<GameId, AllocError>
    ensures value { IfOk result (λ id. IsIdOf store.new (nimber number) id) }
    ensures kept { Extends store.old store.new }
{
    let mut nimbers = Vec::new(alloc);
    let zero = store.number(Dyadic::whole(0))?;
    nimbers.push(zero)?;
    let count = number as usize;
    'building: while nimbers.len() <= count {
        add_nimber(store, &mut nimbers)?;
    }
    Ok(nimbers[count])
}

/// The nimber of a number above 0, which has as many parts.
fn taken_nimber(
    alloc: Global,
    store: &mut Store,
    number: u64,
    parts_limit: u32,
) -> Result<GameId, ReadError>
    requires { 0 < number }
    ensures taken { IfOk result (λ id. IsTaken store.new parts_limit (nimber number) id) }
    ensures refusal { IfErr result (λ e. IsFormRefusal (nimber number) parts_limit e) }
    ensures kept { Extends store.old store.new }
{
    if number > u64::from(parts_limit) {
        return Err(ReadError::Parts);
    }
    let id = built_nimber(alloc, store, number)?;
    Ok(id)
}

/// The canonical form of the form with these options.
fn taken_choice(
    alloc: Global,
    store: &mut Store,
    left: GameId,
    right: GameId,
    parts_limit: u32,
) -> Result<GameId, ReadError>
    requires left { left < length store.old }
    requires right { right < length store.old }
    ensures taken { IfOk result (λ id. IsTaken store.new parts_limit
        (choice (tree_at store.old left) (tree_at store.old right)) id) }
    ensures refusal { IfErr result (λ e. IsFormRefusal
        (choice (tree_at store.old left) (tree_at store.old right)) parts_limit e) }
    ensures kept { Extends store.old store.new }
{
    Ok(canonical(alloc, store, &[left], &[right], parts_limit)?)
}

/// Up.
pub(crate) fn taken_up(
    alloc: Global,
    store: &mut Store,
    parts_limit: u32,
) -> Result<GameId, ReadError>
    ensures taken { IfOk result (λ id. IsTaken store.new parts_limit up id) }
    ensures refusal { IfErr result (λ e. IsFormRefusal up parts_limit e) }
    ensures kept { Extends store.old store.new }
{
    let star = built_nimber(alloc, store, 1)?;
    let zero = built_nimber(alloc, store, 0)?;
    taken_choice(alloc, store, zero, star, parts_limit)
}

/// Down.
pub(crate) fn taken_down(
    alloc: Global,
    store: &mut Store,
    parts_limit: u32,
) -> Result<GameId, ReadError>
    ensures taken { IfOk result (λ id. IsTaken store.new parts_limit down id) }
    ensures refusal { IfErr result (λ e. IsFormRefusal down parts_limit e) }
    ensures kept { Extends store.old store.new }
{
    let star = built_nimber(alloc, store, 1)?;
    let zero = built_nimber(alloc, store, 0)?;
    taken_choice(alloc, store, star, zero, parts_limit)
}

/// The switch whose Right option is this number.
fn taken_switch(
    alloc: Global,
    store: &mut Store,
    x: Dyadic,
    parts_limit: u32,
) -> Result<GameId, ReadError>
    ensures taken { IfOk result (λ id. IsTaken store.new parts_limit (switch_below x) id) }
    ensures refusal { IfErr result (λ e. IsFormRefusal (switch_below x) parts_limit e) }
    ensures kept { Extends store.old store.new }
{
    let left = store.number(x.neg())?;
    let right = store.number(x)?;
    taken_choice(alloc, store, left, right, parts_limit)
}

/// The number whose nimber a star and the digits up to a place name.
fn star_number(alloc: Global, text: &[u8], start: usize, end: usize) -> Result<u64, ReadError>
    requires { EndsDigitsAt text.now start end }
    ensures some { IfOk result (λ n. 0 < n) }
    ensures number { IfOk result (λ n. ReadsNimber (drop start text.now)
        (reads (nimber n) (drop end text.now))) }
    ensures refusal { IfErr result (λ e. (parts_limit : ℕ)
        → IsRefusedBy ReadsNimber parts_limit text.now start e) }
{
    if end == start {
        return Ok(1);
    }
    match nimber_number(alloc, &text[start..end])? {
        Some(number) => Ok(number),
        None => Err(ReadError::BadNumber(start)),
    }
}

/// Reads what stands behind a star.
pub(crate) fn read_nimber(
    alloc: Global,
    store: &mut Store,
    text: &[u8],
    start: usize,
    parts_limit: u32,
) -> Result<Found, ReadError>
    requires { start ≤ length text.now }
    ensures found { IfOk result
        (λ found. IsFoundBy ReadsNimber store.new parts_limit text.now start found) }
    ensures refusal { IfErr result (λ e. IsRefusedBy ReadsNimber parts_limit text.now start e) }
    ensures kept { Extends store.old store.new }
{
    let end = digits_end(text, start);
    let number = star_number(alloc, text, start, end)?;
    let id = taken_nimber(alloc, store, number, parts_limit)?;
    Ok(Found { id, end })
}

/// Whether the number is below 0.
fn is_negative(x: Dyadic) -> bool
    ensures { IsTrue result ↔ (x <ℤ pos 0) }
{
    x.units() < 0
}

/// Reads what stands behind a plus.
pub(crate) fn read_switch(
    alloc: Global,
    store: &mut Store,
    text: &[u8],
    start: usize,
    parts_limit: u32,
) -> Result<Found, ReadError>
    requires { start ≤ length text.now }
    ensures found { IfOk result
        (λ found. IsFoundBy ReadsSwitch store.new parts_limit text.now start found) }
    ensures refusal { IfErr result (λ e. IsRefusedBy ReadsSwitch parts_limit text.now start e) }
    ensures kept { Extends store.old store.new }
{
    if start >= text.len() {
        return Err(ReadError::CutShort);
    }
    if !is_number_byte(text[start]) {
        return Err(ReadError::BadByte(start));
    }
    let end = run_end(text, start);
    let Some(x) = number_of_text(alloc, &text[start..end])? else {
        return Err(ReadError::BadNumber(start));
    };
    if !is_negative(x) {
        return Err(ReadError::BadNumber(start));
    }
    let id = taken_switch(alloc, store, x, parts_limit)?;
    Ok(Found { id, end })
}
