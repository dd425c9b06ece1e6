//! Komi.

ghost use Rattle.std.specs.Prelude.{false, ◌≡◌, ◌≤◌, ◌+◌, ◌*◌, ℤ, true, length, drop, IfSome, IfNone};
ghost use Rattle.sgf_go.specs.Komi.{IsKomi, IsInRange};
ghost use Rattle.sgf_go.specs.inner.Scan.{all_zeros, fraction, scan, scan_signed};

/// The most whole points of a komi, before half a point that may be added.
pub const MOST_KOMI: u32 = 999_999;

/// The bytes from a place on.
#[tactic(auto, using(std::proofs::lemmas::List::take_rest))]
pub(crate) fn rest_of(text: &[u8], from: usize) -> &[u8]
    requires { from ≤ length text.now }
    ensures { result.now ≡ drop from text.now }
{
    &text[from..]
}

#[tactic(auto, using(crate::proofs::ScanLemmas::zeros_first, crate::proofs::ScanLemmas::zeros_not, crate::proofs::ScanLemmas::zeros_end))]
fn are_zeros(bytes: &[u8]) -> bool
    ensures { result ≡ all_zeros bytes.now }
{
    for at in 0..bytes.len() {
        if bytes[at] != b'0' {
            return false;
        }
    }
    true
}

/// The halves behind the point, where `some` says whether a digit came before it.
fn read_fraction(some: bool, bytes: &[u8]) -> Option<u32>
    ensures value { result ≡ fraction some bytes.now }
    ensures most { IfSome result (λ n. n ≤ 1) }
{
    if bytes.is_empty() {
        if some {
            return Some(0);
        }
        return None;
    }
    if !are_zeros(rest_of(bytes, 1)) {
        return None;
    }
    match bytes[0] {
        b'0' => Some(0),
        b'5' => Some(1),
        _ => None,
    }
}

/// The halves that a text without a sign says.
fn read_halves(text: &[u8]) -> Option<u32>
    ensures value { result ≡ scan 0 false text.now }
    ensures most { IfSome result (λ n. n ≤ 2 * MOST_KOMI + 1) }
{
    let mut whole = 0;
    let mut some = false;
    for at in 0..text.len() {
        let byte = text[at];
        if byte.is_ascii_digit() {
            whole = 10 * whole + u32::from(byte - b'0');
            if whole > MOST_KOMI {
                return None;
            }
            some = true;
        } else {
            if byte != b'.' {
                return None;
            }
            let more = read_fraction(some, rest_of(text, at + 1))?;
            return Some(2 * whole + more);
        }
    }
    if some {
        return Some(2 * whole);
    }
    None
}

/// The half-points of a text without a sign or behind its sign.
fn read_signed(text: &[u8]) -> Option<i64>
    ensures value { result ≡ scan_signed text.now }
    ensures range { IfSome result IsInRange }
{
    if text.is_empty() {
        return None;
    }
    match text[0] {
        b'+' => Some(i64::from(read_halves(rest_of(text, 1))?)),
        b'-' => Some(-i64::from(read_halves(rest_of(text, 1))?)),
        _ => Some(i64::from(read_halves(text)?)),
    }
}

/// The half-points of a komi, or `None` where the text isn't one: an optional sign, digits of at most 999,999, and
/// optionally a point and further digits, that are all `0` or a `5` and then only `0`.
#[tactic(auto, using(crate::proofs::KomiLemmas::komi_some, crate::proofs::KomiLemmas::komi_none))]
pub fn read_komi(text: &[u8]) -> Option<i64>
    ensures some { IfSome result (λ k. IsKomi text.now k) }
    ensures none { IfNone result ((k : ℤ) → ¬ IsKomi text.now k) }
    ensures range { IfSome result IsInRange }
{
    read_signed(text)
}
