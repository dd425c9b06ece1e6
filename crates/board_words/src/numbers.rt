//! Words of digits.

ghost use Rattle.std.specs.Prelude.{◌≡◌, ◌↔◌, ◌≤◌, ℕ, true, length, IfSome, IfNone};
ghost use Rattle.std.specs.Char.{is_ascii_digit};
ghost use Rattle.std.specs.List.{list_all};
ghost use Rattle.std.specs.Str.Parse.{digits_value};
ghost use Rattle.board_words.specs.Numbers.{IsNumberWord, IsNumeral};

use std::str;

/// The most digits of a number.
const MOST_DIGITS: usize = 10;

fn are_digits(word: &[u8]) -> bool
    ensures { result ≡ list_all is_ascii_digit word.now }
{
    word.iter().all(|byte| byte.is_ascii_digit())
}

/// Whether a word is one to ten digits.
pub fn is_numeral(word: &[u8]) -> bool
    ensures { (result ≡ true) ↔ IsNumeral word.now }
{
    if word.is_empty() || word.len() > MOST_DIGITS {
        return false;
    }
    are_digits(word)
}

#[tactic(auto, using(crate::proofs::DigitLemmas::parsed))]
fn value_of(digits: &str) -> u64
    requires digits { list_all is_ascii_digit digits.now ≡ true }
    requires some { 1 ≤ length digits.now }
    requires few { length digits.now ≤ 10 }
    ensures { result ≡ digits_value 10 digits.now }
{
    match digits.parse::<u64>() {
        Ok(value) => value,
        // Ten digits are below 2^64.
        Err(_) => unreachable!(),
    }
}

/// The number that a word of one to ten digits writes.
#[tactic(auto, using(crate::proofs::DigitLemmas::not_text))]
pub fn read_number(word: &[u8]) -> Option<u64>
    ensures some { IfSome result (λ n. IsNumberWord word.now n) }
    ensures none { IfNone result ((n : ℕ) → ¬ IsNumberWord word.now n) }
{
    if !is_numeral(word) {
        return None;
    }
    match str::from_utf8(word) {
        Ok(digits) => Some(value_of(digits)),
        Err(_) => None,
    }
}
