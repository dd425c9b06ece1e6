//! The answer to a line.

ghost use Rattle.std.specs.Prelude.{◌≡◌, ◌<◌, ℕ, IfOk, IfErr, length};
ghost use Rattle.short_games.specs.Tree.{tree_at};
ghost use Rattle.game_calc.specs.inner.Amounts.{IsAmount, IsHeld};
ghost use Rattle.game_calc.specs.Answer.{IsLineAnswer, IsAnswered, IsCalcRefusal, IsOrderText, IsPastLimit, order_word};
ghost use Rattle.game_calc.specs.inner.Answer.{IsShown, IsShownRefusal, IsUnanswered};
ghost use Rattle.game_calc.specs.Expression.{Expression, Line};
ghost use Rattle.game_calc.specs.inner.Machine.{IsAsked, IsAskedHeld};
ghost use Rattle.game_calc.specs.Expression.Line.{order, value};
ghost use Rattle.game_calc.specs.declared.amounts.Pass.TheVariants as the_pass;

use crate::amounts::Amount;
use crate::errors::CalcError;
use crate::expressions::read_and_sum;
use crate::pending::Asked;
use board_words::write_words;
use game_canon::{Order, compare};
use game_lines::{ShowError, show, write_showing};
use game_store::{GameId, Store};
use game_text::Text;
use std::alloc::{AllocError, Global};

/// The word of an order.
fn order_word(order: Order) -> &'static str
    ensures { result.now ≡ order_word order }
{
    match order {
        Order::Less => "less",
        Order::Equal => "equal",
        Order::Greater => "greater",
        Order::Confused => "confused",
    }
}

/// The lines that show a game.
fn game_text(alloc: Global, store: &Store, id: GameId) -> Result<Text, CalcError>
    requires { id < length store.now }
    ensures text { IfOk result (IsShown (tree_at store.now id)) }
    ensures refusal { IfErr result (IsShownRefusal (tree_at store.now id)) }
{
    match show(alloc, store, id) {
        Ok(showing) => {
            let mut text = Text::new(alloc);
            write_showing(alloc, &mut text, &showing)?;
            Ok(text)
        }
        Err(ShowError::Form) => Err(CalcError::Limit),
        Err(ShowError::Memory(cause)) => Err(CalcError::Memory(cause)),
    }
}

/// The answer to a line that asks for the value of a sum.
fn value_answer(alloc: Global, store: &Store, amount: Amount) -> Result<Text, CalcError>
    requires { IsHeld store.now amount }
    ensures text { IfOk result (λ text. (limit : ℕ) (E : Expression)
        → IsAmount store.now limit E amount → (IsPastLimit limit (value E) → ⊥)
        × IsLineAnswer (value E) text) }
    ensures refusal { IfErr result (λ error. (limit : ℕ) (E : Expression)
        → IsAmount store.now limit E amount → IsUnanswered limit (value E) error) }
{
    match amount {
        Amount::Known(id) => game_text(alloc, store, id),
        Amount::TooLarge => Err(CalcError::Limit),
    }
}

/// The line of the order of two games.
fn order_text(alloc: Global, store: &Store, a: GameId, b: GameId) -> Result<Text, AllocError>
    requires a { a < length store.now }
    requires b { b < length store.now }
    ensures { IfOk result (IsOrderText (tree_at store.now a) (tree_at store.now b)) }
{
    let order = compare(alloc, store, a, b)?;
    let mut text = String::new(alloc);
    write_words(&mut text, "order", order_word(order))?;
    Ok(Text::from(text))
}

/// The answer to a line that asks for the order of two sums.
fn order_answer(
    alloc: Global,
    store: &Store,
    first: Amount,
    second: Amount,
) -> Result<Text, CalcError>
    requires first { IsHeld store.now first }
    requires second { IsHeld store.now second }
    ensures text { IfOk result (λ text. (limit : ℕ) (E F : Expression)
        → IsAmount store.now limit E first → IsAmount store.now limit F second
        → (IsPastLimit limit (order E F) → ⊥) × IsLineAnswer (order E F) text) }
    ensures refusal { IfErr result (λ error. (limit : ℕ) (E F : Expression)
        → IsAmount store.now limit E first → IsAmount store.now limit F second
        → IsUnanswered limit (order E F) error) }
{
    match first {
        Amount::TooLarge => Err(CalcError::Limit),
        Amount::Known(a) => match second {
            Amount::TooLarge => Err(CalcError::Limit),
            Amount::Known(b) => Ok(order_text(alloc, store, a, b)?),
        },
    }
}

/// The answer to what a line asks for.
fn answer_asked(alloc: Global, store: &Store, asked: Asked) -> Result<Text, CalcError>
    requires { IsAskedHeld store.now asked }
    ensures text { IfOk result (λ text. (limit : ℕ) (line : Line)
        → IsAsked the_pass.Sums store.now limit line asked
        → (IsPastLimit limit line → ⊥) × IsLineAnswer line text) }
    ensures refusal { IfErr result (λ error. (limit : ℕ) (line : Line)
        → IsAsked the_pass.Sums store.now limit line asked → IsUnanswered limit line error) }
{
    match asked {
        Asked::Value(amount) => value_answer(alloc, store, amount),
        Asked::Order(first, second) => order_answer(alloc, store, first, second),
    }
}

/// The answer to a line: the lines `value`, `stops`, `mean`, `temperature`, `left` and `right` for the value of a sum, or
/// the line `order` for the order of two. The first refusal from the front is given: `Byte` at a token, or a byte of one,
/// that fits no rule, `Number` at one that is no number, `CutShort` where a term or a `)` is due at the end, or where it
/// ends within a game, `Deep` at a parenthesis or a brace that is number 1,001 of those that are open, and `Limit` at a
/// game that has too many parts or a number past the bounds; then `Limit` where a step is out of limits, or the value
/// isn't shown.
pub fn answer(alloc: Global, expression: &[u8], parts_limit: u32) -> Result<Text, CalcError>
    ensures answer { IfOk result (IsAnswered parts_limit expression.now) }
    ensures refusal { IfErr result (IsCalcRefusal parts_limit expression.now) }
{
    let mut store = Store::new(alloc);
    let asked = read_and_sum(alloc, &mut store, expression, parts_limit)?;
    answer_asked(alloc, &store, asked)
}
