//! Fingerprints of forms.

ghost use Rattle.std.specs.Prelude.{◌≡◌, fold};
ghost use Rattle.game_store.specs.inner.Chain.{mix, number_fingerprint, options_fingerprint};

use dyadic_num::Dyadic;

/// 2^64 over the golden ratio: of two lists of small ids that differ in two places the fingerprints differ.
const MULTIPLIER: u64 = 0x9E37_79B9_7F4A_7C15;

/// The fingerprint after one more word.
fn mix_one(hash: u64, word: u64) -> u64
    ensures { result ≡ mix hash word }
{
    hash.wrapping_mul(MULTIPLIER).wrapping_add(word)
}

/// The fingerprint after the ids.
fn mix_all(start: u64, ids: &[u64]) -> u64
    ensures { result ≡ fold mix start ids.now }
{
    let mut hash = start;
    for id in ids {
        hash = mix_one(hash, *id);
    }
    hash
}

/// The fingerprint of a form with options.
#[tactic(auto, unfolding(crate::specs::inner::Chain::options_fingerprint))]
pub(crate) fn fingerprint_options(left: &[u64], right: &[u64]) -> u64
    ensures { result ≡ options_fingerprint left.now right.now }
{
    mix_all(mix_one(mix_all(1, left), 7), right)
}

/// The fingerprint of a number, which its negative shares.
#[tactic(auto, unfolding(crate::specs::inner::Chain::number_fingerprint))]
pub(crate) fn fingerprint_number(x: Dyadic) -> u64
    ensures { result ≡ number_fingerprint x }
{
    let size = x.units().unsigned_abs();
    let high = (size / (1 << 64)) as u64;
    let low = (size % (1 << 64)) as u64;
    mix_one(mix_one(3, high), low)
}
