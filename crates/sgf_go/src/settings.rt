//! What a caller sets.

use go_grid::Colour;

/// The most prisoners that a side has besides those of the record's moves.
pub const MOST_PRISONERS: u32 = 999_999;

/// What a caller sets beside the record: at most so many prisoners, and a komi from -1,999,999 to 1,999,999 half-points.
#[derive(Clone, Copy, PartialEq, Eq)]
pub struct Settings {
    /// The line ends before the first move that comes after so many moves and passes.
    pub after: Option<u32>,
    /// The komi in half-points, in place of the record's.
    pub komi: Option<i64>,
    /// The side to move, in place of the record's.
    pub turn: Option<Colour>,
    /// Prisoners that Black has besides those of the record's moves.
    pub black_prisoners: u64,
    /// The same of White.
    pub white_prisoners: u64,
    /// Whether the points that the last node marks by TB and TW are declared.
    pub territory: bool,
}
