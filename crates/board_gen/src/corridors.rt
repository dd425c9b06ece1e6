//! The corridors that a number draws.

ghost use Rattle.std.specs.Prelude.{◌≡◌, ℕ, ◌+◌, ◌*◌, ◌%◌, ◌<◌, ◌≤◌, ◌↔◌, true, IfOk};
ghost use Rattle.board_gen.specs.Trial.{IsInSomeCorridor};
ghost use Rattle.board_gen.specs.inner.Corridor.{AreCorridors, Covers, IsCorridor};

use std::alloc::{AllocError, Global};

/// The number of columns of each board.
pub(crate) const COLUMNS: u16 = 25;

/// Numbers are drawn below this prime.
const MODULUS: u32 = 65537;

/// A corridor: the columns from `start` up to `end`, which is not one of them, of a row.
#[derive(Clone, Copy)]
pub(crate) struct Corridor {
    pub(crate) row: u8,
    pub(crate) start: u8,
    pub(crate) end: u8,
}

impl Corridor {
    /// Corridor `number`, counted from 1, for which `drawn` was drawn.
    fn of(number: u8, drawn: u32) -> Corridor
        requires least { 1 ≤ number }
        requires most { number ≤ 16 }
        ensures { IsCorridor drawn number result }
    {
        let kind = (drawn % 8) as u8;
        let length = kind % 4;
        let is_black = kind < 4;
        let is_odd = number % 2 == 1;
        let border = if is_odd { 8 } else { 16 };
        let row = 3 * ((number - 1) / 2) + 1;
        // Black's columns are left of the first border, White's left of the second.
        if is_black == is_odd {
            return Corridor {
                row,
                start: border - length,
                end: border,
            };
        }
        Corridor {
            row,
            start: border,
            end: border + length,
        }
    }

    /// Whether a point of the board is in the corridor.
    fn contains(&self, point: u16) -> bool
        ensures { (result ≡ true) ↔ Covers self.now point }
    {
        let row = point / COLUMNS;
        let column = point % COLUMNS;
        row == u16::from(self.row)
            && u16::from(self.start) <= column
            && column < u16::from(self.end)
    }
}

/// The number drawn after another.
fn next(drawn: u32) -> u32
    requires { drawn < 65537 }
    ensures { result ≡ (75 * drawn + 74) % 65537 }
{
    (75 * drawn + 74) % MODULUS
}

/// The corridors that the number draws.
pub(crate) fn corridors_of(alloc: Global, number: u32) -> Result<Vec<Corridor>, AllocError>
    ensures { IfOk result (λ corridors. AreCorridors number 16 corridors.items) }
{
    let mut corridors = Vec::new(alloc);
    let mut drawn = number % MODULUS;
    'drawing: for place in 0..16u8 {
        drawn = next(drawn);
        corridors.push(Corridor::of(place + 1, drawn))?;
    }
    Ok(corridors)
}

/// Whether the point is in one of the number's corridors.
pub(crate) fn is_in_corridor(corridors: &[Corridor], point: u16) -> bool
    ensures { (number : ℕ) → AreCorridors number 16 corridors.now
        → (result ≡ true) ↔ IsInSomeCorridor number point }
{
    corridors.iter().any(|corridor| corridor.contains(point))
}
