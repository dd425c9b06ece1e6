//! The walls of regions.

ghost use Rattle.std.specs.Prelude.{◌≡◌, ℕ, ◌*◌, ◌<◌, ◌↔◌, ◌⊎◌};
ghost use Rattle.go_grid.specs.Board.{DeclaresNothing, Lacks};
ghost use Rattle.go_grid.specs.Marks.{IsMarked, IsWithin, Marks, Touches};
ghost use Rattle.go_grid.specs.Parts.{label};
ghost use Rattle.benson_life.specs.Life.{IsWalledBy};
ghost use Rattle.benson_life.specs.inner.Survey.{IsSurvey};

use crate::surveys::Survey;
use go_grid::{Board, Colour, Labels, MOST_POINTS, Point, Points, Size, label_of, touches};

/// The points of a set whose label is in the second set.
pub(crate) fn labelled(size: Size, within: &Points, labels: &Labels, chosen: &Points) -> Points
    requires { IsWithin (size.columns * size.rows) within.now }
    ensures { Marks result (λ p. IsMarked within.now p × IsMarked chosen.now (label labels.now p)) }
{
    Points::chosen(size.area(), |point| {
        within.contains(point) && chosen.contains(label_of(labels, point))
    })
}

/// The points of either set, of which the first has none where nothing is declared.
pub(crate) fn either(board: &Board, sure: &Points, points: &Points) -> Points
    requires { DeclaresNothing board.now → (p : ℕ) → ¬ IsMarked sure.now p }
    ensures { Marks result (λ q. IsMarked sure.now q ⊎ IsMarked points.now q) }
{
    if board.declares_nothing() {
        return *points;
    }
    sure.union(points)
}

/// The labels of the points of a set that are next to a point of another.
pub(crate) fn labels_beside(size: Size, within: &Points, labels: &Labels, points: &Points) -> Points
    requires within { IsWithin (size.columns * size.rows) within.now }
    requires labels { (p : ℕ) → IsMarked within.now p → label labels.now p < MOST_POINTS }
    requires points { IsWithin (size.columns * size.rows) points.now }
    ensures { Marks result (λ r. (p : ℕ) × IsMarked within.now p × (label labels.now p ≡ r)
        × Touches size.columns points.now p) }
{
    let mut found = Points::new();
    for number in 0..size.area() {
        let point = Point(number);
        if within.contains(point) && touches(size, points, point) {
            found.insert(label_of(labels, point));
        }
    }
    found
}

/// The regions that are next to a stone of the colour that isn't kept.
pub(crate) fn breached(board: &Board, colour: Colour, survey: &Survey, kept: &Points) -> Points
    requires { IsSurvey board.now colour survey.now }
    ensures { (r : ℕ) → Lacks board.now colour r
        → (¬ IsMarked result (label survey.now.regions r))
        ↔ IsWalledBy board.now colour (IsMarked kept.now) r }
{
    let struck = survey.stones.difference(kept);
    labels_beside(board.size(), &survey.lacking, &survey.regions, &struck)
}
