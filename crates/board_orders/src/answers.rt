//! Answers to questions about a state.

ghost use Rattle.std.specs.Prelude.{◌≡◌, IfOk, decimal, string_bytes};
ghost use Rattle.board_words.specs.Komi.{komi_word};
ghost use Rattle.board_orders.specs.Effects.{answer_text};

use crate::board_text::position_text;
use crate::question::Question;
use crate::session::BoardSession;
use crate::texts::{history_text, stones_text};
use board_words::write_komi_word;
use std::alloc::{AllocError, Global};

/// The text of a number.
fn number_text(alloc: Global, number: usize) -> Result<String, AllocError>
    ensures { IfOk result (λ text. string_bytes text ≡ decimal number) }
{
    format!(in alloc; "{number}")
}

/// The text of a komi in half-points.
fn komi_text(alloc: Global, halves: i64) -> Result<String, AllocError>
    ensures { IfOk result (λ text. string_bytes text ≡ komi_word halves) }
{
    let mut text = String::new(alloc);
    write_komi_word(&mut text, halves)?;
    Ok(text)
}

impl BoardSession {
    /// The text of a part of the state.
    pub(crate) fn answer_text(
        &self,
        alloc: Global,
        question: Question,
    ) -> Result<String, AllocError>
        ensures { IfOk result (λ text. string_bytes text ≡ answer_text question self.now) }
    {
        match question {
            Question::Size => number_text(alloc, usize::from(self.present().board.size().columns)),
            Question::Komi => komi_text(alloc, self.komi_halves()),
            Question::Handicap => number_text(alloc, self.handicap()),
            Question::Board => position_text(alloc, self.present(), self.komi_halves()),
            Question::History => history_text(alloc, self.size(), self.moves()),
            Question::Stones(colour) => stones_text(alloc, &self.present().board, colour),
            Question::Captures(colour) => {
                let number = self.present().prisoners.of(colour);
                number_text(alloc, number as usize)
            }
        }
    }
}
