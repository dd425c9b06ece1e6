//! Reading.

ghost use Rattle.std.specs.Prelude.{◌≡◌, ◌<◌, ◌≤◌, ◌+◌, ◌++◌, ◌∷◌, [], ◌↔◌, List, length, slice_index, slice_range, take, drop, None, IsTrue, IfOk, IfErr, OnOk};
ghost use Rattle.short_games.specs.Tree.{Tree};
ghost use Rattle.game_store.specs.Meaning.{listed, AreIds, Extends};
ghost use Rattle.game_canon.specs.Outcomes.{IsCanonicalId};
ghost use Rattle.game_text.specs.Reading.{IsNameByte, IsNumberByte, IsReadRefusal, Names, ReadsName};
ghost use Rattle.game_text.specs.inner.Machine.{EndsRunAt, GoesOnInText, IsTextDue, IsMarkOfInnermost, IsFormTaken, IsFoundBy, IsRefusedBy, IsEnded, mark_at, opening_at, place_after};
ghost use Rattle.game_text.specs.Depth.{most_open};
ghost use Rattle.game_text.specs.inner.Refusals.{IsWantOfMemory, IsOpeningRefusal, IsFormRefusal};
ghost use Rattle.game_text.specs.declared.pending.Opening.{Opening};
ghost use Rattle.game_text.specs.declared.pending.Place.TheVariants.{First, Game, Whole};
ghost use Rattle.game_text.specs.declared.errors.ReadError.TheVariants.{CutShort};

use crate::errors::ReadError;
use crate::named_games::{Found, read_nimber, read_switch, taken_down, taken_up};
use crate::numbers::number_of_text;
use crate::pending::{Opening, Pending, Place, Source, Step};
use crate::writing::MOST_OPEN;
use game_canon::canonical;
use game_store::{GameId, Store};
use std::alloc::Global;

/// Whether the byte is one of numbers.
pub(crate) fn is_number_byte(byte: u8) -> bool
    ensures { IsTrue result ↔ IsNumberByte byte }
{
    matches!(byte, b'-' | b'/'..=b'9')
}

/// Where the longest run of bytes of numbers ends.
pub(crate) fn run_end(text: &[u8], first: usize) -> usize
    requires { first ≤ length text.now }
    ensures { EndsRunAt text.now first result }
{
    let mut at = first;
    'running: while at < text.len() {
        if !is_number_byte(text[at]) {
            return at;
        }
        at += 1;
    }
    at
}

/// Whether the byte ends the options that are read of the innermost open form.
fn ends_side(pending: &Pending, byte: u8) -> bool
    ensures { (below : List Opening) (top : Opening) → pending.now.opens.items ≡ below ++ top ∷ []
        → IsTrue result ↔ (byte ≡ mark_at top) }
{
    match pending.opens.last() {
        Some(top) => match top.middle {
            None => byte == b'|',
            Some(_) => byte == b'}',
        },
        None => false,
    }
}

/// Takes a game that was read among the options.
fn take_game(pending: &mut Pending, id: GameId) -> Result<Place, ReadError>
    ensures options { IfOk result
        (λ place. pending.new.options.items ≡ pending.old.options.items ++ id ∷ []) }
    ensures opens { IfOk result (λ place. pending.new.opens.items ≡ pending.old.opens.items) }
    ensures place { IfOk result (λ place. place ≡ place_after pending.old.opens.items) }
    ensures refusal { IfErr result (λ e. IsWantOfMemory e) }
{
    pending.options.push(id)?;
    if pending.opens.is_empty() {
        Ok(Place::Whole)
    } else {
        Ok(Place::Behind)
    }
}

/// Reads a number.
fn read_number(
    alloc: Global,
    store: &mut Store,
    pending: &mut Pending,
    source: &Source<'_>,
    at: usize,
) -> Result<Step, ReadError>
    requires reading { IsTextDue store.old source.now at Game pending.old }
    requires here { at < length source.now.text.now }
    requires byte { IsNumberByte (slice_index source.now.text.now at) }
    ensures next { IfOk result (GoesOnInText store.new source.now at pending.new) }
    ensures refusal { IfErr result (IsReadRefusal source.now.parts_limit source.now.text.now) }
    ensures kept { Extends store.old store.new }
{
    let end = run_end(source.text, at);
    let Some(x) = number_of_text(alloc, &source.text[at..end])? else {
        return Err(ReadError::BadNumber(at));
    };
    let id = store.number(x)?;
    let place = take_game(pending, id)?;
    Ok(Step { at: end, place })
}

/// Whether the byte begins the name of a game that is no number.
fn is_name_byte(byte: u8) -> bool
    ensures { IsTrue result ↔ IsNameByte byte }
{
    matches!(byte, b'*' | b'^' | b'v' | b'+')
}

/// The game that a name names, and the place behind it.
fn named_game(
    alloc: Global,
    store: &mut Store,
    source: &Source<'_>,
    at: usize,
) -> Result<Found, ReadError>
    requires here { at < length source.now.text.now }
    requires byte { IsNameByte (slice_index source.now.text.now at) }
    ensures found { IfOk result (λ found. IsFoundBy
        (ReadsName
        (slice_index source.now.text.now at)) store.new source.now.parts_limit source.now.text.now
        (at + 1) found) }
    ensures refusal { IfErr result (λ e. IsRefusedBy
        (ReadsName (slice_index source.now.text.now at)) source.now.parts_limit source.now.text.now
        (at + 1) e) }
    ensures kept { Extends store.old store.new }
{
    let byte = source.text[at];
    let start = at + 1;
    if byte == b'*' {
        return read_nimber(alloc, store, source.text, start, source.parts_limit);
    }
    if byte == b'+' {
        return read_switch(alloc, store, source.text, start, source.parts_limit);
    }
    if byte == b'^' {
        let id = taken_up(alloc, store, source.parts_limit)?;
        return Ok(Found { id, end: start });
    }
    let id = taken_down(alloc, store, source.parts_limit)?;
    Ok(Found { id, end: start })
}

/// Reads a name.
fn read_name(
    alloc: Global,
    store: &mut Store,
    pending: &mut Pending,
    source: &Source<'_>,
    at: usize,
) -> Result<Step, ReadError>
    requires reading { IsTextDue store.old source.now at Game pending.old }
    requires here { at < length source.now.text.now }
    requires byte { IsNameByte (slice_index source.now.text.now at) }
    ensures next { IfOk result (GoesOnInText store.new source.now at pending.new) }
    ensures refusal { IfErr result (IsReadRefusal source.now.parts_limit source.now.text.now) }
    ensures kept { Extends store.old store.new }
{
    let found = named_game(alloc, store, source, at)?;
    let place = take_game(pending, found.id)?;
    Ok(Step {
        at: found.end,
        place,
    })
}

/// Opens a form.
fn open_form(pending: &mut Pending) -> Result<(), ReadError>
    ensures opens { OnOk result (pending.new.opens.items ≡ pending.old.opens.items ++ opening_at
        (length pending.old.options.items) None ∷ []) }
    ensures options { OnOk result (pending.new.options.items ≡ pending.old.options.items) }
    ensures few { OnOk result (length pending.old.opens.items < most_open) }
    ensures refusal { IfErr result (λ e. IsOpeningRefusal (length pending.old.opens.items) e) }
{
    if pending.opens.len() >= MOST_OPEN {
        return Err(ReadError::Deep);
    }
    let opening = Opening {
        start: pending.options.len(),
        middle: None,
    };
    pending.opens.push(opening)?;
    Ok(())
}

/// Reads a number, a name or the opening brace of a form.
fn read_game(
    alloc: Global,
    store: &mut Store,
    pending: &mut Pending,
    source: &Source<'_>,
    at: usize,
) -> Result<Step, ReadError>
    requires reading { IsTextDue store.old source.now at Game pending.old }
    requires here { at < length source.now.text.now }
    ensures next { IfOk result (GoesOnInText store.new source.now at pending.new) }
    ensures refusal { IfErr result (IsReadRefusal source.now.parts_limit source.now.text.now) }
    ensures kept { Extends store.old store.new }
{
    let byte = source.text[at];
    if is_number_byte(byte) {
        return read_number(alloc, store, pending, source, at);
    }
    if is_name_byte(byte) {
        return read_name(alloc, store, pending, source, at);
    }
    if byte != b'{' {
        return Err(ReadError::BadByte(at));
    }
    open_form(pending)?;
    Ok(Step {
        at: at + 1,
        place: Place::First,
    })
}

/// Makes a form canonical whose closing brace is read.
fn close(
    alloc: Global,
    store: &mut Store,
    pending: &mut Pending,
    start: usize,
    middle: usize,
    parts_limit: u32,
) -> Result<Place, ReadError>
    requires start { start ≤ middle }
    requires middle { middle ≤ length pending.old.options.items }
    requires left { AreIds store.old (slice_range pending.old.options.items start middle) }
    requires right { AreIds store.old (drop middle pending.old.options.items) }
    ensures value { IfOk result (λ place. IsFormTaken store.old store.new parts_limit
        (slice_range pending.old.options.items start middle) (drop middle pending.old.options.items)
        (take start pending.old.options.items) pending.new.options.items) }
    ensures opens { IfOk result (λ place. pending.new.opens.items ≡ pending.old.opens.items) }
    ensures place { IfOk result (λ place. place ≡ place_after pending.old.opens.items) }
    ensures refusal { IfErr result (λ e. IsFormRefusal
        (listed store.old (slice_range pending.old.options.items start middle)
        (drop middle pending.old.options.items)) parts_limit e) }
    ensures kept { Extends store.old store.new }
{
    let left = &pending.options[start..middle];
    let right = &pending.options[middle..];
    let id = canonical(alloc, store, left, right, parts_limit)?;
    pending.options.truncate(start);
    take_game(pending, id)
}

/// Reads the bar or the closing brace behind the options of a side.
fn end_side(
    alloc: Global,
    store: &mut Store,
    pending: &mut Pending,
    source: &Source<'_>,
    at: usize,
) -> Result<Step, ReadError>
    requires reading { IsTextDue store.old source.now at First pending.old }
    requires here { at < length source.now.text.now }
    requires mark { IsMarkOfInnermost pending.old.opens.items (slice_index source.now.text.now at) }
    ensures next { IfOk result (GoesOnInText store.new source.now at pending.new) }
    ensures refusal { IfErr result (IsReadRefusal source.now.parts_limit source.now.text.now) }
    ensures kept { Extends store.old store.new }
{
    let Some(top) = pending.opens.pop() else {
        // A mark is read only where braces are open.
        unreachable!()
    };
    let Some(middle) = top.middle else {
        let opening = Opening {
            start: top.start,
            middle: Some(pending.options.len()),
        };
        pending.opens.push(opening)?;
        return Ok(Step {
            at: at + 1,
            place: Place::First,
        });
    };
    let place = close(alloc, store, pending, top.start, middle, source.parts_limit)?;
    Ok(Step { at: at + 1, place })
}

/// Reads what stands at the place, at most up to the end of a number.
fn read_step(
    alloc: Global,
    store: &mut Store,
    pending: &mut Pending,
    source: &Source<'_>,
    step: Step,
) -> Result<Step, ReadError>
    requires reading { IsTextDue store.old source.now step.at step.place pending.old }
    requires here { step.at < length source.now.text.now }
    ensures next { IfOk result (GoesOnInText store.new source.now step.at pending.new) }
    ensures refusal { IfErr result (IsReadRefusal source.now.parts_limit source.now.text.now) }
    ensures kept { Extends store.old store.new }
{
    let at = step.at;
    let byte = source.text[at];
    match step.place {
        Place::Whole => Err(ReadError::BadByte(at)),
        Place::Game => read_game(alloc, store, pending, source, at),
        Place::First => {
            if ends_side(pending, byte) {
                return end_side(alloc, store, pending, source, at);
            }
            read_game(alloc, store, pending, source, at)
        }
        Place::Behind => {
            if ends_side(pending, byte) {
                return end_side(alloc, store, pending, source, at);
            }
            if byte != b',' {
                return Err(ReadError::BadByte(at));
            }
            Ok(Step {
                at: at + 1,
                place: Place::Game,
            })
        }
    }
}

/// What a text names that was read to its end.
fn named(pending: &Pending, place: Place) -> Result<GameId, ReadError>
    requires { IsEnded place pending.now.options.items }
    ensures id { IfOk result (λ id. (place ≡ Whole) × (pending.now.options.items ≡ id ∷ [])) }
    ensures refusal { IfErr result (λ e. (e ≡ CutShort) × (place ≡ Whole → ⊥)) }
{
    match place {
        Place::Whole => Ok(pending.options[0]),
        Place::First | Place::Game | Place::Behind => Err(ReadError::CutShort),
    }
}

/// The canonical form that a text names: a number in decimal or as a fraction in lowest terms; `*` for the nimber of 1,
/// and `*` with digits for that of a number from 2 to 4,294,967,295; `^` for up and `v` for down; `+` and the text of a
/// number -x below 0 for the switch `{x|-x}`; or `{`, games with commas between them, `|`, games with commas between them
/// and `}`. Each form is made canonical when its closing brace is read, so texts with and without names are read. The
/// first refusal from the front is given: `BadNumber` at a run of the bytes `-`, `/` and digits that is no text of a
/// `Dyadic`, or of none below 0 behind `+`, and at digits behind `*` that are no such number; `BadByte` at a byte that
/// fits no rule, `Deep` at a brace that is number 1,001 of those that are open, `Parts` and `Bounds` as `canonical` has
/// them, at a name too, and `CutShort` where the text ends before its game does. Every id keeps its form, whatever the
/// answer.
pub fn read(
    alloc: Global,
    store: &mut Store,
    text: &[u8],
    parts_limit: u32,
) -> Result<GameId, ReadError>
    ensures named { IfOk result (λ id. (G : Tree) × Names parts_limit text.now G
        × IsCanonicalId store.new G id) }
    ensures refusal { IfErr result (λ e. IsReadRefusal parts_limit text.now e) }
    ensures kept { Extends store.old store.new }
{
    let source = Source { text, parts_limit };
    let mut pending = Pending {
        options: Vec::new(alloc),
        opens: Vec::new(alloc),
    };
    let mut step = Step {
        at: 0,
        place: Place::Game,
    };
    'reading: while step.at < text.len() {
        step = read_step(alloc, store, &mut pending, &source, step)?;
    }
    named(&pending, step.place)
}
