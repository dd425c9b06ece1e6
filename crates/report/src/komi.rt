//! Komi in lines.

ghost use Rattle.std.specs.Prelude.{◌≡◌, ◌++◌, OnOk, codes, string_bytes};
ghost use Rattle.board_words.specs.Komi.{komi_word};
ghost use Rattle.report.specs.Komi.{komi_line, komi_pair_line};

use board_words::write_komi_word;
use std::alloc::AllocError;

/// Appends a label and a komi in half-points.
#[tactic(auto, using(std::proofs::Common::append_assoc))]
fn write_front(text: &mut String, label: &str, halves: i64) -> Result<(), AllocError>
    ensures { OnOk result (string_bytes text.new
        ≡ string_bytes text.old ++ (label.now ++ (codes " " ++ komi_word halves))) }
{
    text.push_str(label)?;
    text.push_str(" ")?;
    write_komi_word(text, halves)
}

/// Appends the line of a komi in half-points.
#[tactic(auto, using(std::proofs::Common::append_assoc), unfolding(crate::specs::Komi::komi_line))]
pub fn write_komi(text: &mut String, label: &str, halves: i64) -> Result<(), AllocError>
    ensures { OnOk result
        (string_bytes text.new ≡ string_bytes text.old ++ komi_line label.now halves) }
{
    write_front(text, label, halves)?;
    text.push_str("\n")
}

/// Appends the line of two komi in half-points.
#[tactic(auto, using(std::proofs::Common::append_assoc), unfolding(crate::specs::Komi::komi_line, crate::specs::Komi::komi_pair_line))]
pub fn write_komi_pair(
    text: &mut String,
    label: &str,
    first: i64,
    second: i64,
) -> Result<(), AllocError>
    ensures { OnOk result (string_bytes text.new
        ≡ string_bytes text.old ++ komi_pair_line label.now first second) }
{
    write_front(text, label, first)?;
    write_komi(text, "", second)
}
