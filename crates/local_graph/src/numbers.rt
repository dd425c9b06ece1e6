//! The number in base 3 of the position after a move, from that of the position before it.

ghost use Rattle.std.specs.Prelude.{◌≡◌, ◌^◌, ◌<◌};
ghost use Rattle.local_graph.specs.inner.PlaceTable.{threes, ArePowers, AddsDigit};

use crate::place_table::threes;
use go_grid::Colour;
use local_play::{LocalMove, MOST_PLACES};

/// The powers of 3, one for each place.
pub(crate) fn powers() -> [u64; MOST_PLACES]
    ensures { ArePowers result }
{
    let mut powers = [1; MOST_PLACES];
    for place in 1..MOST_PLACES {
        powers[place] = 3 * powers[place - 1];
    }
    powers
}

/// The number of the position after a move: a move that takes nothing adds its stone's digit.
#[inline(always)]
pub(crate) fn number_after(powers: &[u64; MOST_PLACES], from: u64, step: &LocalMove) -> u64
    requires powers { ArePowers powers.now }
    requires small { from < 3 ^ MOST_PLACES }
    requires follows { AddsDigit from step.now }
    ensures { result ≡ threes step.now.next }
{
    if step.taken > 0 {
        return threes(step.next.0);
    }
    let one = powers[usize::from(step.place)];
    match step.colour {
        Colour::Black => from + one,
        Colour::White => from + 2 * one,
    }
}
