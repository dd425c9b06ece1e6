//! Counted points and what they are worth.

ghost use Rattle.std.specs.Prelude.{◌≡◌, ℕ, ◌<◌, ◌⊎◌, length, All, sum_by};
ghost use Rattle.std.specs.List.Sorted.{IsStrictlyIncreasing};
ghost use Rattle.go_grid.specs.Board.{IsDeclared};
ghost use Rattle.go_grid.specs.Marks.{IsMarked, Lists, Marks};
ghost use Rattle.benson_life.specs.inner.Eyes.{AreEyes, HasWalledEye};
ghost use Rattle.benson_life.specs.Held.{IsHeld, worth};
ghost use Rattle.benson_life.specs.Life.{IsAlive, IsCounted};
ghost use Rattle.benson_life.specs.inner.Survey.{IsSurvey};

use crate::eyes::Eye;
use crate::surveys::Survey;
use crate::walls::{breached, labelled};
use go_grid::{Board, Cell, Colour, MOST_POINTS, Point, Points};

/// The regions that are walled eyes of a kept chain.
fn eyes_of(eyes: &[Eye], breached: &Points, kept: &Points) -> Points
    requires { All (λ e. (e.region < MOST_POINTS) × (e.chain < MOST_POINTS)) eyes.now }
    ensures { Marks result (λ r. (k : ℕ) × HasWalledEye eyes.now breached.now k r
        × IsMarked kept.now k) }
{
    let mut found = Points::new();
    for eye in eyes {
        if !breached.contains(eye.region) && kept.contains(eye.chain) {
            found.insert(eye.region);
        }
    }
    found
}

/// The points of a set, and those that are declared for the colour.
fn with_declared(board: &Board, colour: Colour, points: &Points) -> Points
    ensures { Marks result (λ p. IsMarked points.now p ⊎ IsDeclared board.now colour p) }
{
    if board.declares_nothing() {
        return *points;
    }
    points.union(&board.declared(colour))
}

/// The points that are counted for the colour: those of each region that is vital to an alive chain and next
/// to alive stones of the colour alone, and the declared ones.
pub(crate) fn counted_points(
    board: &Board,
    colour: Colour,
    survey: &Survey,
    eyes: &[Eye],
    alive: &Points,
) -> Points
    requires survey { IsSurvey board.now colour survey.now }
    requires eyes { AreEyes board.now colour survey.now eyes.now }
    requires alive { Marks alive.now (IsAlive board.now colour) }
    ensures { Marks result (IsCounted board.now colour) }
{
    let size = board.size();
    let breached = breached(board, colour, survey, alive);
    let found = eyes_of(eyes, &breached, alive);
    let in_eyes = labelled(size, &survey.lacking, &survey.regions, &found);
    with_declared(board, colour, &in_eyes)
}

/// What counted points are worth to the colour: 1 for each empty one, and 2 for each stone of the other
/// colour.
pub fn held(board: &Board, colour: Colour, counted: &[Point]) -> u32
    requires ascending { IsStrictlyIncreasing counted.now }
    requires on_board { All (λ p. p < length board.now.cells) counted.now }
    ensures worth { result ≡ sum_by (worth board.now colour) counted.now }
    ensures held { Lists counted.now (IsCounted board.now colour) → IsHeld board.now colour result }
{
    let _size = board.size();
    let mut total = 0;
    for point in counted {
        total += match (board.get(*point), colour) {
            (Cell::Empty, _) => 1,
            (Cell::White, Colour::Black) => 2,
            (Cell::Black, Colour::White) => 2,
            (Cell::Black, Colour::Black) => 0,
            (Cell::White, Colour::White) => 0,
        };
    }
    total
}
