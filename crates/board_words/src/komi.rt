//! Komi in texts.

ghost use Rattle.std.specs.Prelude.{◌≡◌, ◌%◌, ◌++◌, OnOk, string_bytes};
ghost use Rattle.board_words.specs.Komi.{komi_word, rest_word, sign_word};

use std::alloc::AllocError;

/// The sign of a komi.
fn sign_word(halves: i64) -> &'static str
    ensures { result.now ≡ sign_word halves }
{
    if halves < 0 { "-" } else { "" }
}

/// What so many half-points leave but whole points.
fn rest_word(halves: u64) -> &'static str
    ensures { result.now ≡ rest_word (halves % 2) }
{
    if halves % 2 == 0 { "" } else { ".5" }
}

/// Appends a komi in half-points.
#[tactic(auto, using(std::proofs::Common::append_assoc))]
pub fn write_komi_word(text: &mut String, halves: i64) -> Result<(), AllocError>
    ensures { OnOk result (string_bytes text.new ≡ string_bytes text.old ++ komi_word halves) }
{
    let sign = sign_word(halves);
    let size = halves.unsigned_abs();
    let points = size / 2;
    let rest = rest_word(size);
    write!(text, "{sign}{points}{rest}")
}
