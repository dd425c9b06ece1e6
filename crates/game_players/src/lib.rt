//! Players as the sides of a game: Black is Left, so what is good for Black is positive (Conway, On Numbers and Games).
#![tactic(auto)]

ghost use Rattle.std.specs.Prelude.{◌≡◌, ◌≤◌, unsigned_abs};
ghost use Rattle.game_players.specs.Players.{credit};

use go_grid::Colour;

/// So many stones to the good of the player, as stones to the good of Black.
pub fn credit(player: Colour, stones: u8) -> i32
    ensures credit { result ≡ credit player stones }
    ensures small { unsigned_abs result ≤ 255 }
{
    let stones = i32::from(stones);
    match player {
        Colour::Black => stones,
        Colour::White => -stones,
    }
}
