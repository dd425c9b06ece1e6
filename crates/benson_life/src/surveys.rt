//! The chains and regions of one colour.

ghost use Rattle.std.specs.Prelude.{◌*◌};
ghost use Rattle.benson_life.specs.inner.Survey.{IsSurvey};

use go_grid::{Board, Colour, Labels, Points, components};

/// A board as one colour sees it: its stones with their chains, the points without one of its stones
/// with their regions, and the empty points. A chain or region is named by its lowest point.
#[derive(Drop)]
pub(crate) struct Survey {
    pub stones: Points,
    pub lacking: Points,
    pub empties: Points,
    pub chains: Labels,
    pub regions: Labels,
}

/// The chains and regions of the colour.
pub(crate) fn survey_of(board: &Board, colour: Colour) -> Survey
    ensures { IsSurvey board.now colour result }
{
    let size = board.size();
    let stones = board.stones(colour);
    let lacking = board.lacking(colour);
    let chains = components(size, &stones);
    let regions = components(size, &lacking);
    Survey {
        stones,
        lacking,
        empties: board.empties(),
        chains,
        regions,
    }
}
