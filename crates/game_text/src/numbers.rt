//! The texts of numbers.

ghost use Rattle.std.specs.Prelude.{◌≡◌, ◌<◌, ◌≤◌, ◌^◌, ℕ, ℤ, pos, Some, length, slice_index, IsTrue, ◌↔◌, IfOk, MatchOption, string_bytes};
ghost use Rattle.std.specs.Fmt.{decimal, signed_decimal};
ghost use Rattle.dyadic_num.specs.Units.{IsInBounds};
ghost use Rattle.short_games.specs.TextOrder.{tree_text};
ghost use Rattle.short_games.specs.Number.{number_tree};
ghost use Rattle.game_text.specs.Reading.{IsNumberText};
ghost use Rattle.game_text.specs.inner.Slashes.{HasNoSlash, IsFirstSlash};

use dyadic_num::{Dyadic, EXPONENT};
use std::alloc::{AllocError, Global};

/// The text of a number: a whole number in decimal, and any other as a fraction in lowest terms.
pub fn number_text(alloc: Global, x: Dyadic) -> Result<String, AllocError>
    ensures { IfOk result (λ t. string_bytes t ≡ tree_text (number_tree x)) }
{
    let mut text = String::new(alloc);
    let numerator = x.numerator();
    let exponent = x.exponent();
    if exponent == 0 {
        write!(text, "{numerator}")?;
        return Ok(text);
    }
    let denominator = 1_u64 << exponent;
    write!(text, "{numerator}/{denominator}")?;
    Ok(text)
}

/// The whole number that digits write.
fn parsed_size(digits: &[u8]) -> Option<i128>
    ensures { (n : ℕ) → n < 2 ^ 127 → digits.now ≡ decimal n → result ≡ Some (pos n) }
{
    let text = std::str::from_utf8(digits).ok()?;
    let size = text.parse::<u128>().ok()?;
    i128::try_from(size).ok()
}

/// Whether a minus stands in front.
fn is_negative(text: &[u8]) -> bool
    ensures { IsTrue result ↔ ((0 < length text.now) × (slice_index text.now 0 ≡ 45)) }
{
    !text.is_empty() && text[0] == b'-'
}

/// The whole number that a sign and digits write.
fn parsed_integer(text: &[u8]) -> Option<i128>
    ensures { (n : ℤ) → IsInBounds n → text.now ≡ signed_decimal n → result ≡ Some n }
{
    if is_negative(text) {
        return parsed_size(&text[1..])?.checked_neg();
    }
    parsed_size(text)
}

/// The number of 64 bits that digits write.
pub(crate) fn parsed_count(digits: &[u8]) -> Option<u64>
    ensures { (n : ℕ) → n < 2 ^ 64 → digits.now ≡ decimal n → result ≡ Some n }
{
    let text = std::str::from_utf8(digits).ok()?;
    text.parse::<u64>().ok()
}

/// The exponent of the power of two that digits write.
fn parsed_exponent(digits: &[u8]) -> Option<u8>
    ensures { (e : ℕ) → e ≤ EXPONENT → digits.now ≡ decimal (2 ^ e) → result ≡ Some e }
{
    let power = parsed_count(digits)?;
    if power == 0 {
        return None;
    }
    Some(power.ilog2() as u8)
}

/// Where the first slash stands.
fn first_slash(run: &[u8]) -> Option<usize>
    ensures { MatchOption result (HasNoSlash run.now (length run.now))
        (λ i. IsFirstSlash run.now i) }
{
    let mut at = 0;
    'looking: while at < run.len() {
        if run[at] == b'/' {
            return Some(at);
        }
        at += 1;
    }
    None
}

/// The number that a text may write: where it is the text of one, that one.
fn parsed(run: &[u8]) -> Option<Dyadic>
    ensures { (u : ℤ) → IsNumberText u run.now → result ≡ Some u }
{
    match first_slash(run) {
        Some(at) => {
            let numerator = parsed_integer(&run[..at])?;
            let exponent = parsed_exponent(&run[at + 1..])?;
            Dyadic::part(numerator, exponent)
        }
        None => Dyadic::part(parsed_integer(run)?, 0),
    }
}

/// The number that a text is the text of.
pub(crate) fn number_of_text(alloc: Global, run: &[u8]) -> Result<Option<Dyadic>, AllocError>
    ensures { IfOk result (λ found. MatchOption found ((u : ℤ) → IsNumberText u run.now → ⊥)
        (λ u. IsNumberText u run.now)) }
{
    let Some(x) = parsed(run) else {
        return Ok(None);
    };
    let text = number_text(alloc, x)?;
    if text.as_bytes() == run {
        Ok(Some(x))
    } else {
        Ok(None)
    }
}
