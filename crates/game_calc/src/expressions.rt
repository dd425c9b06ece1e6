//! Reading a line.

ghost use Rattle.std.specs.Prelude.{◌≡◌, ◌<◌, ◌≤◌, ℕ, IfOk, IfErr, Ok, None, length, drop, slice_range};
ghost use Rattle.short_games.specs.Tree.{Tree};
ghost use Rattle.game_store.specs.Meaning.{Extends};
ghost use Rattle.game_text.specs.Reading.{IsReadRefusal, ReadsText};
ghost use Rattle.game_canon.specs.Outcomes.{IsCanonicalId};
ghost use Rattle.game_calc.specs.Expression.{Line, ReadsLine, first_bytes, first_sign, kind, next, token};
ghost use Rattle.game_calc.specs.inner.Machine.{GoesOnInLine, IsAsked, IsGameRefusal, IsLineDue, IsLineRefusal, IsTokenAt};
ghost use Rattle.game_calc.specs.declared.amounts.Pass.TheVariants as the_pass;
ghost use Rattle.game_calc.specs.declared.pending.Place.TheVariants as due;
ghost use Rattle.game_calc.specs.declared.tokens.Kind.TheVariants as the_kind;

use crate::amounts::{Amount, Opening, Pass, Sign, with_term};
use crate::errors::{CalcError, CalcFault};
use crate::pending::{Asked, Pending, Place, Source, Step, Turn};
use crate::tokens::{Kind, Token, next_token};
use game_store::{GameId, Store};
use game_text::{ReadError, read};
use std::alloc::Global;

/// The most parentheses that may be open at once.
const MOST_OPEN: usize = 1000;

/// Where the first term of a sum is due, behind its sign.
fn sum_start(text: &[u8], at: usize) -> Step
    requires { at ≤ length text.now }
    ensures place { result.place ≡ due.Term (record {
      before = None;
      sign = first_sign
          (kind (drop at text.now));
    }) }
    ensures bytes { drop result.at text.now ≡ first_bytes (kind (drop at text.now))
        (drop at text.now) }
    ensures forward { at ≤ result.at }
    ensures within { result.at ≤ length text.now }
{
    let token = next_token(text, at);
    match token.kind {
        Kind::Minus => Step {
            at: token.end,
            place: Place::Term(Opening {
                before: None,
                sign: Sign::Minus,
            }),
        },
        Kind::End | Kind::Plus | Kind::Open | Kind::Close | Kind::Query | Kind::Game => Step {
            at,
            place: Place::Term(Opening {
                before: None,
                sign: Sign::Plus,
            }),
        },
    }
}

/// Why a line is refused whose token names no game.
fn refusal_of(source: &Source<'_>, word: Token, error: ReadError) -> CalcError
    requires within { (word.start ≤ word.end) × (word.end ≤ length source.now.text.now) }
    requires refusal { IsReadRefusal source.now.parts_limit
        (slice_range source.now.text.now word.start word.end) error }
    ensures { (at : ℕ) → IsTokenAt source.now.text.now at word → word.kind ≡ the_kind.Game
        → IsGameRefusal source.now.parts_limit source.now.text.now at result }
{
    match error {
        ReadError::BadByte(place) => CalcError::Fault(CalcFault::Byte(word.start + place)),
        ReadError::BadNumber(place) => CalcError::Fault(CalcFault::Number(word.start + place)),
        ReadError::CutShort => {
            if word.end < source.text.len() {
                return CalcError::Fault(CalcFault::Byte(word.end));
            }
            CalcError::Fault(CalcFault::CutShort)
        }
        ReadError::Deep => CalcError::Fault(CalcFault::Deep),
        ReadError::Parts => CalcError::Limit,
        ReadError::Bounds => CalcError::Limit,
        ReadError::Memory(cause) => CalcError::Memory(cause),
    }
}

/// The form that a token names.
fn read_game(
    alloc: Global,
    store: &mut Store,
    source: &Source<'_>,
    at: usize,
    word: Token,
) -> Result<GameId, CalcError>
    requires word { IsTokenAt source.now.text.now at word }
    requires game { word.kind ≡ the_kind.Game }
    ensures named { IfOk result (λ id. (G : Tree)
        × ReadsText source.now.parts_limit (token (next (drop at source.now.text.now))) (Ok G)
        × IsCanonicalId store.new G id) }
    ensures refusal { IfErr result (IsGameRefusal source.now.parts_limit source.now.text.now at) }
    ensures kept { Extends store.old store.new }
{
    let name = &source.text[word.start..word.end];
    match read(alloc, store, name, source.parts_limit) {
        Ok(id) => Ok(id),
        Err(error) => Err(refusal_of(source, word, error)),
    }
}

/// Takes a game as a term.
fn read_named(
    alloc: Global,
    store: &mut Store,
    pending: &Pending,
    source: &Source<'_>,
    at: usize,
    word: Token,
    opening: Opening,
) -> Result<Turn, CalcError>
    requires reading { IsLineDue store.old source.now at (due.Term opening) pending.now }
    requires word { IsTokenAt source.now.text.now at word }
    requires some { word.start < word.end }
    requires game { word.kind ≡ the_kind.Game }
    ensures turn { IfOk result (GoesOnInLine store.new source.now at pending.now) }
    ensures refusal { IfErr result (IsLineRefusal source.now.parts_limit source.now.text.now) }
    ensures kept { Extends store.old store.new }
{
    let id = read_game(alloc, store, source, at, word)?;
    let limit = source.parts_limit;
    let amount = with_term(alloc, store, opening, Amount::Known(id), limit, source.pass)?;
    Ok(Turn::Next(Step {
        at: word.end,
        place: Place::Behind(amount),
    }))
}

/// Opens a parenthesis.
fn open_group(
    store: &Store,
    pending: &mut Pending,
    source: &Source<'_>,
    at: usize,
    word: Token,
    opening: Opening,
) -> Result<Turn, CalcError>
    requires reading { IsLineDue store.now source.now at (due.Term opening) pending.old }
    requires word { IsTokenAt source.now.text.now at word }
    requires some { word.start < word.end }
    requires open { word.kind ≡ the_kind.Open }
    ensures turn { IfOk result (GoesOnInLine store.now source.now at pending.new) }
    ensures refusal { IfErr result (IsLineRefusal source.now.parts_limit source.now.text.now) }
{
    if pending.opens.len() >= MOST_OPEN {
        return Err(CalcError::Fault(CalcFault::Deep));
    }
    pending.opens.push(opening)?;
    let inner = sum_start(source.text, word.end);
    Ok(Turn::Next(inner))
}

/// Reads where a term is due.
fn read_term(
    alloc: Global,
    store: &mut Store,
    pending: &mut Pending,
    source: &Source<'_>,
    at: usize,
    opening: Opening,
) -> Result<Turn, CalcError>
    requires reading { IsLineDue store.old source.now at (due.Term opening) pending.old }
    ensures turn { IfOk result (GoesOnInLine store.new source.now at pending.new) }
    ensures refusal { IfErr result (IsLineRefusal source.now.parts_limit source.now.text.now) }
    ensures kept { Extends store.old store.new }
{
    let word = next_token(source.text, at);
    match word.kind {
        Kind::Game => read_named(alloc, store, pending, source, at, word, opening),
        Kind::Open => open_group(store, pending, source, at, word, opening),
        Kind::End => Err(CalcError::Fault(CalcFault::CutShort)),
        Kind::Plus => Err(CalcError::Fault(CalcFault::Byte(word.start))),
        Kind::Minus => Err(CalcError::Fault(CalcFault::Byte(word.start))),
        Kind::Close => Err(CalcError::Fault(CalcFault::Byte(word.start))),
        Kind::Query => Err(CalcError::Fault(CalcFault::Byte(word.start))),
    }
}

/// Takes the sum in a parenthesis as a term.
fn close_group(
    alloc: Global,
    store: &mut Store,
    pending: &mut Pending,
    source: &Source<'_>,
    at: usize,
    word: Token,
    amount: Amount,
) -> Result<Turn, CalcError>
    requires reading { IsLineDue store.old source.now at (due.Behind amount) pending.old }
    requires word { IsTokenAt source.now.text.now at word }
    requires some { word.start < word.end }
    requires close { word.kind ≡ the_kind.Close }
    ensures turn { IfOk result (GoesOnInLine store.new source.now at pending.new) }
    ensures refusal { IfErr result (IsLineRefusal source.now.parts_limit source.now.text.now) }
    ensures kept { Extends store.old store.new }
{
    let Some(opening) = pending.opens.pop() else {
        return Err(CalcError::Fault(CalcFault::Byte(word.start)));
    };
    let limit = source.parts_limit;
    let amount = with_term(alloc, store, opening, amount, limit, source.pass)?;
    Ok(Turn::Next(Step {
        at: word.end,
        place: Place::Behind(amount),
    }))
}

/// Begins the second sum.
fn second_sum(
    store: &Store,
    pending: &mut Pending,
    source: &Source<'_>,
    at: usize,
    word: Token,
    amount: Amount,
) -> Result<Turn, CalcError>
    requires reading { IsLineDue store.now source.now at (due.Behind amount) pending.old }
    requires word { IsTokenAt source.now.text.now at word }
    requires some { word.start < word.end }
    requires query { word.kind ≡ the_kind.Query }
    ensures turn { IfOk result (GoesOnInLine store.now source.now at pending.new) }
    ensures refusal { IfErr result (IsLineRefusal source.now.parts_limit source.now.text.now) }
{
    if !pending.opens.is_empty() {
        return Err(CalcError::Fault(CalcFault::Byte(word.start)));
    }
    match pending.first {
        Some(_first) => Err(CalcError::Fault(CalcFault::Byte(word.start))),
        None => {
            pending.first = Some(amount);
            Ok(Turn::Next(sum_start(source.text, word.end)))
        }
    }
}

/// What a line asks for that has ended.
fn whole(
    store: &Store,
    pending: &Pending,
    source: &Source<'_>,
    at: usize,
    amount: Amount,
) -> Result<Turn, CalcError>
    requires reading { IsLineDue store.now source.now at (due.Behind amount) pending.now }
    requires end { kind (drop at source.now.text.now) ≡ the_kind.End }
    ensures turn { IfOk result (GoesOnInLine store.now source.now at pending.now) }
    ensures refusal { IfErr result (IsLineRefusal source.now.parts_limit source.now.text.now) }
{
    if !pending.opens.is_empty() {
        return Err(CalcError::Fault(CalcFault::CutShort));
    }
    match pending.first {
        None => Ok(Turn::Whole(Asked::Value(amount))),
        Some(first) => Ok(Turn::Whole(Asked::Order(first, amount))),
    }
}

/// Reads what stands behind a term.
fn read_behind(
    alloc: Global,
    store: &mut Store,
    pending: &mut Pending,
    source: &Source<'_>,
    at: usize,
    amount: Amount,
) -> Result<Turn, CalcError>
    requires reading { IsLineDue store.old source.now at (due.Behind amount) pending.old }
    ensures turn { IfOk result (GoesOnInLine store.new source.now at pending.new) }
    ensures refusal { IfErr result (IsLineRefusal source.now.parts_limit source.now.text.now) }
    ensures kept { Extends store.old store.new }
{
    let word = next_token(source.text, at);
    match word.kind {
        Kind::Plus => Ok(Turn::Next(Step {
            at: word.end,
            place: Place::Term(Opening {
                before: Some(amount),
                sign: Sign::Plus,
            }),
        })),
        Kind::Minus => Ok(Turn::Next(Step {
            at: word.end,
            place: Place::Term(Opening {
                before: Some(amount),
                sign: Sign::Minus,
            }),
        })),
        Kind::Close => close_group(alloc, store, pending, source, at, word, amount),
        Kind::Query => second_sum(store, pending, source, at, word, amount),
        Kind::End => whole(store, pending, source, at, amount),
        Kind::Open => Err(CalcError::Fault(CalcFault::Byte(word.start))),
        Kind::Game => Err(CalcError::Fault(CalcFault::Byte(word.start))),
    }
}

/// Reads the next token.
fn read_turn(
    alloc: Global,
    store: &mut Store,
    pending: &mut Pending,
    source: &Source<'_>,
    step: Step,
) -> Result<Turn, CalcError>
    requires reading { IsLineDue store.old source.now step.at step.place pending.old }
    ensures turn { IfOk result (GoesOnInLine store.new source.now step.at pending.new) }
    ensures refusal { IfErr result (IsLineRefusal source.now.parts_limit source.now.text.now) }
    ensures kept { Extends store.old store.new }
{
    match step.place {
        Place::Term(opening) => read_term(alloc, store, pending, source, step.at, opening),
        Place::Behind(amount) => read_behind(alloc, store, pending, source, step.at, amount),
    }
}

/// What a line asks for: its sums are taken from left to right, inner parentheses first, where the pass makes them. The
/// first refusal from the front is given.
fn read_line(
    alloc: Global,
    store: &mut Store,
    text: &[u8],
    parts_limit: u32,
    pass: Pass,
) -> Result<Asked, CalcError>
    ensures asked { IfOk result (λ asked. (line : Line) × ReadsLine parts_limit text.now (Ok line)
        × IsAsked pass store.new parts_limit line asked) }
    ensures refusal { IfErr result (IsLineRefusal parts_limit text.now) }
    ensures kept { Extends store.old store.new }
{
    let source = Source {
        text,
        parts_limit,
        pass,
    };
    let mut pending = Pending {
        opens: Vec::new(alloc),
        first: None,
    };
    let mut step = sum_start(text, 0);
    'reading: loop {
        match read_turn(alloc, store, &mut pending, &source, step)? {
            Turn::Next(next) => step = next,
            Turn::Whole(asked) => return Ok(asked),
        }
    }
}

/// What a line asks for, with its sums made: they are begun only where the whole line has no fault.
pub(crate) fn read_and_sum(
    alloc: Global,
    store: &mut Store,
    text: &[u8],
    parts_limit: u32,
) -> Result<Asked, CalcError>
    ensures asked { IfOk result (λ asked. (line : Line) × ReadsLine parts_limit text.now (Ok line)
        × IsAsked the_pass.Sums store.new parts_limit line asked) }
    ensures refusal { IfErr result (IsLineRefusal parts_limit text.now) }
    ensures kept { Extends store.old store.new }
{
    read_line(alloc, store, text, parts_limit, Pass::Grammar)?;
    read_line(alloc, store, text, parts_limit, Pass::Sums)
}
