//! The options of a position as one list of numbers.

ghost use Rattle.std.specs.Prelude.{◌≡◌, ◌+◌, ◌*◌, IfOk, IsTrue};
ghost use Rattle.std.specs.List.Sorted.{IsPermutation};
ghost use Rattle.local_value.specs.Remembered.{side, option_for, options_of};

use game_store::GameId;
use go_grid::Colour;
use std::alloc::{AllocError, Global};

/// Ids below this one have numbers in a list.
pub(crate) const MOST_IDS: GameId = 1 << 31;

/// The number of an option: twice its id, and one more for White's. Want of memory where so many forms would have to be stored
/// that it doesn't fit.
pub(crate) fn number_of(player: Colour, id: GameId) -> Result<u32, AllocError>
    ensures { IfOk result (λ option. option ≡ 2 * id + side player) }
{
    if id >= MOST_IDS {
        return Err(AllocError);
    }
    let option = 2 * id as u32;
    match player {
        Colour::Black => Ok(option),
        Colour::White => Ok(option + 1),
    }
}

/// Whether two lists are the same.
#[inline(always)]
pub(crate) fn are_same(options: &[u32], others: &[u32]) -> bool
    ensures { IsTrue result → options.now ≡ others.now }
{
    if options.len() != others.len() {
        return false;
    }
    'comparing: for at in 0..options.len() {
        if options[at] != others[at] {
            return false;
        }
    }
    true
}

/// The same options in ascending order.
pub(crate) fn in_order(alloc: Global, options: &[u32]) -> Result<Vec<u32>, AllocError>
    ensures { IfOk result (λ sorted. IsPermutation options.now sorted.items) }
{
    let mut sorted = Vec::with_capacity(alloc, options.len())?;
    sorted.extend_from_slice(options)?;
    sorted.sort_unstable();
    Ok(sorted)
}

/// The id of an option, if it is the player's.
fn id_for(player: Colour, option: u32) -> Option<GameId>
    ensures { result ≡ option_for player option }
{
    let side = match player {
        Colour::Black => 0,
        Colour::White => 1,
    };
    if option % 2 == side {
        return Some(u64::from(option / 2));
    }
    None
}

/// The ids of the player's options.
pub(crate) fn ids_for(
    alloc: Global,
    player: Colour,
    options: &[u32],
) -> Result<Vec<GameId>, AllocError>
    ensures { IfOk result (λ ids. ids.items ≡ options_of player options.now) }
{
    let mut ids = Vec::new(alloc);
    for option in options {
        match id_for(player, *option) {
            Some(id) => ids.push(id)?,
            None => {}
        }
    }
    Ok(ids)
}
