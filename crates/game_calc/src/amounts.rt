//! What sums come to: the canonical forms, as far as the steps are within the limits.

ghost use Rattle.std.specs.Prelude.{◌<◌, ℕ, IfOk, Option, length};
ghost use Rattle.game_store.specs.Meaning.{Extends};
ghost use Rattle.game_calc.specs.Expression.{Expression, signed, with_term};
ghost use Rattle.game_calc.specs.Expression.Expression.{opposite, sum};
ghost use Rattle.game_calc.specs.inner.Amounts.{IsAmount, IsBefore, IsHeld, IsHeldBefore, IsTerm};
ghost use Rattle.game_calc.specs.declared.amounts.Amount.TheVariants.{Known};
ghost use Rattle.game_calc.specs.declared.amounts.Pass.TheVariants as the_pass;

use crate::sums::add;
use game_canon::{FormError, negate};
use game_store::{GameId, Store};
use std::alloc::{AllocError, Global};

/// What a sum comes to: the id of its canonical form, or that a step of it is out of limits.
#[derive(Clone, Copy)]
pub(crate) enum Amount {
    Known(GameId),
    TooLarge,
}

/// The sign in front of a term.
#[derive(Clone, Copy)]
pub(crate) enum Sign {
    Plus,
    Minus,
}

/// What a pass over a line does with its sums: it makes none and reads the grammar alone, or it makes them.
#[derive(Clone, Copy)]
pub(crate) enum Pass {
    Grammar,
    Sums,
}

/// What stands before a term: the terms of its sum so far, where there are some, and its sign.
#[derive(Clone, Copy)]
pub(crate) struct Opening {
    pub(crate) before: Option<Amount>,
    pub(crate) sign: Sign,
}

/// The opposite: one with as many parts, and numbers of the same sizes.
fn opposite(alloc: Global, store: &mut Store, amount: Amount) -> Result<Amount, AllocError>
    requires { IsHeld store.old amount }
    ensures amount { IfOk result (λ after. (limit : ℕ) (E : Expression)
        → IsAmount store.old limit E amount → IsAmount store.new limit (opposite E) after) }
    ensures held { IfOk result (λ after. IsHeld store.new after) }
    ensures kept { Extends store.old store.new }
{
    match amount {
        Amount::Known(id) => Ok(Amount::Known(negate(alloc, store, id)?)),
        Amount::TooLarge => Ok(Amount::TooLarge),
    }
}

/// The term with its sign.
fn signed(
    alloc: Global,
    store: &mut Store,
    sign: Sign,
    amount: Amount,
) -> Result<Amount, AllocError>
    requires { IsHeld store.old amount }
    ensures amount { IfOk result (λ after. (limit : ℕ) (E : Expression)
        → IsAmount store.old limit E amount → IsAmount store.new limit (signed sign E) after) }
    ensures held { IfOk result (λ after. IsHeld store.new after) }
    ensures kept { Extends store.old store.new }
{
    match sign {
        Sign::Plus => Ok(amount),
        Sign::Minus => opposite(alloc, store, amount),
    }
}

/// The sum of two canonical forms.
fn known_sum(
    alloc: Global,
    store: &mut Store,
    a: GameId,
    b: GameId,
    parts_limit: u32,
) -> Result<Amount, AllocError>
    requires a { a < length store.old }
    requires b { b < length store.old }
    ensures amount { IfOk result (λ after. (E F : Expression)
        → IsAmount store.old parts_limit E (Known a) → IsAmount store.old parts_limit F (Known b)
        → IsAmount store.new parts_limit (sum E F) after) }
    ensures held { IfOk result (λ after. IsHeld store.new after) }
    ensures kept { Extends store.old store.new }
{
    match add(alloc, store, a, b, parts_limit) {
        Ok(id) => Ok(Amount::Known(id)),
        Err(FormError::Parts) => Ok(Amount::TooLarge),
        Err(FormError::Bounds) => Ok(Amount::TooLarge),
        Err(FormError::Memory(cause)) => Err(cause),
    }
}

/// The sum of two amounts.
fn sum_of(
    alloc: Global,
    store: &mut Store,
    first: Amount,
    second: Amount,
    parts_limit: u32,
) -> Result<Amount, AllocError>
    requires first { IsHeld store.old first }
    requires second { IsHeld store.old second }
    ensures amount { IfOk result (λ after. (E F : Expression)
        → IsAmount store.old parts_limit E first → IsAmount store.old parts_limit F second
        → IsAmount store.new parts_limit (sum E F) after) }
    ensures held { IfOk result (λ after. IsHeld store.new after) }
    ensures kept { Extends store.old store.new }
{
    match first {
        Amount::TooLarge => Ok(Amount::TooLarge),
        Amount::Known(a) => match second {
            Amount::TooLarge => Ok(Amount::TooLarge),
            Amount::Known(b) => known_sum(alloc, store, a, b, parts_limit),
        },
    }
}

/// The sum of the terms before, where there are some, and one more with its sign.
fn sum_with(
    alloc: Global,
    store: &mut Store,
    opening: Opening,
    term: Amount,
    parts_limit: u32,
) -> Result<Amount, AllocError>
    requires before { IsHeldBefore store.old opening.before }
    requires term { IsHeld store.old term }
    ensures amount { IfOk result (λ after. (o : Option Expression) (F : Expression)
        → IsBefore the_pass.Sums store.old parts_limit o opening.before
        → IsAmount store.old parts_limit F term
        → IsAmount store.new parts_limit (with_term o opening.sign F) after) }
    ensures held { IfOk result (λ after. IsHeld store.new after) }
    ensures kept { Extends store.old store.new }
{
    let _count = store.len();
    let term = signed(alloc, store, opening.sign, term)?;
    match opening.before {
        None => Ok(term),
        Some(before) => sum_of(alloc, store, before, term, parts_limit),
    }
}

/// The sum of the terms before, where there are some, and one more with its sign. Where no sums are made, this is the term,
/// in the sum's place.
pub(crate) fn with_term(
    alloc: Global,
    store: &mut Store,
    opening: Opening,
    term: Amount,
    parts_limit: u32,
    pass: Pass,
) -> Result<Amount, AllocError>
    requires before { IsHeldBefore store.old opening.before }
    requires term { IsHeld store.old term }
    ensures amount { IfOk result (λ after. (o : Option Expression) (F : Expression)
        → IsBefore pass store.old parts_limit o opening.before
        → IsTerm pass store.old parts_limit F term
        → IsTerm pass store.new parts_limit (with_term o opening.sign F) after) }
    ensures held { IfOk result (λ after. IsHeld store.new after) }
    ensures kept { Extends store.old store.new }
{
    match pass {
        Pass::Grammar => Ok(term),
        Pass::Sums => sum_with(alloc, store, opening, term, parts_limit),
    }
}
