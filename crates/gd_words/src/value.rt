//! Words that stand for a number, a colour or an answer.

ghost use Rattle.std.specs.Prelude.{◌≡◌, ◌<◌, ℕ, Bool, true, IfSome, IfNone};
ghost use Rattle.go_grid.specs.declared.grid.Colour.{Colour};
ghost use Rattle.gd_words.specs.Value.{IsNumberWithin, answer_word};
ghost use Rattle.board_words.specs.Words.{colour_word};

use board_words::read_number;
use go_grid::Colour;

/// The colour that a word names.
pub(crate) fn read_colour(word: &str) -> Option<Colour>
    ensures some { IfSome result (λ colour. word.now ≡ colour_word colour) }
    ensures none { IfNone result ((colour : Colour) → ¬ (word.now ≡ colour_word colour)) }
{
    match word {
        "black" => Some(Colour::Black),
        "white" => Some(Colour::White),
        _ => None,
    }
}

/// True for `yes`, and false for `no`.
pub(crate) fn read_answer(word: &str) -> Option<bool>
    ensures some { IfSome result (λ answer. word.now ≡ answer_word answer) }
    ensures none { IfNone result ((answer : Bool) → ¬ (word.now ≡ answer_word answer)) }
{
    match word {
        "yes" => Some(true),
        "no" => Some(false),
        _ => None,
    }
}

/// The number from `low` to `high` that a word of one to ten digits writes.
pub(crate) fn read_count(low: u32, high: u32, word: &str) -> Option<u32>
    ensures some { IfSome result (λ n. IsNumberWithin low high word.now n) }
    ensures none { IfNone result ((n : ℕ) → ¬ IsNumberWithin low high word.now n) }
{
    let value = read_number(word.as_bytes())?;
    if value < u64::from(low) || value > u64::from(high) {
        return None;
    }
    Some(value as u32)
}
