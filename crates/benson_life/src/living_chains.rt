//! The stones that live without answers, by striking out those that have no room.

ghost use Rattle.std.specs.Prelude.{ℕ, ◌<◌, ◌↔◌, All, count_by};
ghost use Rattle.std.specs.Bool.{OnFalse, OnTrue};
ghost use Rattle.go_grid.specs.Board.{DeclaresNothing, HasStone};
ghost use Rattle.go_grid.specs.Chain.{IsSettled};
ghost use Rattle.go_grid.specs.Marks.{IsMarked, Marks};
ghost use Rattle.go_grid.specs.Parts.{label};
ghost use Rattle.benson_life.specs.inner.Eyes.{AreEyes, HasWalledEye, HasTwoWalledEyes};
ghost use Rattle.benson_life.specs.Life.{HasDeclaredLiberty, HasRoom, IsAlive};
ghost use Rattle.benson_life.specs.inner.Survey.{IsSurvey};

use crate::eyes::Eye;
use crate::surveys::Survey;
use crate::walls::{breached, either, labelled, labels_beside};
use go_grid::{Board, Colour, Labels, MOST_POINTS, Point, Points, label_of};

/// Whether a point of the first set is missing from the second, which lies within it.
fn lost_some(of: &Points, left: &Points) -> bool
    requires { (p : ℕ) → IsMarked left.now p → IsMarked of.now p }
    ensures fewer { OnTrue result (count_by (λ m. m) left.now < count_by (λ m. m) of.now) }
    ensures all { OnFalse result ((p : ℕ) → IsMarked of.now p → IsMarked left.now p) }
{
    !of.difference(left).is_empty()
}

/// For each chain with a walled eye the region of one of them.
fn some_eyes(eyes: &[Eye], breached: &Points) -> Labels
    requires { All (λ e. (e.region < MOST_POINTS) × (e.chain < MOST_POINTS)) eyes.now }
    ensures { (k r : ℕ) → HasWalledEye eyes.now breached.now k r
        → HasWalledEye eyes.now breached.now k (label result k) }
{
    let mut regions = [Point(0); MOST_POINTS];
    for eye in eyes {
        if !breached.contains(eye.region) {
            let chain = eye.chain;
            regions[usize::from(chain.0)] = eye.region;
        }
    }
    regions
}

/// The chains with two walled eyes.
fn two_eyed(eyes: &[Eye], breached: &Points) -> Points
    requires { All (λ e. (e.region < MOST_POINTS) × (e.chain < MOST_POINTS)) eyes.now }
    ensures { Marks result (HasTwoWalledEyes eyes.now breached.now) }
{
    let one = some_eyes(eyes, breached);
    let mut found = Points::new();
    for eye in eyes {
        if !breached.contains(eye.region) && !label_of(&one, eye.chain).is(eye.region) {
            found.insert(eye.chain);
        }
    }
    found
}

/// The chains that have a declared liberty.
fn sure_chains(board: &Board, colour: Colour, survey: &Survey) -> Points
    requires settled { IsSettled board.now }
    requires survey { IsSurvey board.now colour survey.now }
    ensures sure { (s : ℕ) → HasStone board.now colour s
        → IsMarked result (label survey.now.chains s) ↔ HasDeclaredLiberty board.now colour s }
    ensures none { DeclaresNothing board.now → (k : ℕ) → ¬ IsMarked result k }
{
    if board.declares_nothing() {
        return Points::new();
    }
    let declared = board.declared(colour);
    labels_beside(board.size(), &survey.stones, &survey.chains, &declared)
}

/// The kept stones with room: their chains are among the sure ones, or have two eyes whose walls are kept.
fn with_room(
    board: &Board,
    colour: Colour,
    survey: &Survey,
    eyes: &[Eye],
    sure: &Points,
    kept: &Points,
) -> Points
    requires survey { IsSurvey board.now colour survey.now }
    requires eyes { AreEyes board.now colour survey.now eyes.now }
    requires sure { (s : ℕ) → HasStone board.now colour s
        → IsMarked sure.now (label survey.now.chains s) ↔ HasDeclaredLiberty board.now colour s }
    requires none { DeclaresNothing board.now → (k : ℕ) → ¬ IsMarked sure.now k }
    requires kept { (s : ℕ) → IsMarked kept.now s → HasStone board.now colour s }
    ensures { Marks result (λ s. IsMarked kept.now s
        × HasRoom board.now colour (IsMarked kept.now) s) }
{
    let size = board.size();
    let breached = breached(board, colour, survey, kept);
    let eyed = two_eyed(eyes, &breached);
    labelled(size, kept, &survey.chains, &either(board, sure, &eyed))
}

/// The stones of the colour that live without answers.
pub(crate) fn living(board: &Board, colour: Colour, survey: &Survey, eyes: &[Eye]) -> Points
    requires settled { IsSettled board.now }
    requires survey { IsSurvey board.now colour survey.now }
    requires eyes { AreEyes board.now colour survey.now eyes.now }
    ensures { Marks result (IsAlive board.now colour) }
{
    let sure = sure_chains(board, colour, survey);
    let mut kept = survey.stones;
    'striking: loop {
        let left = with_room(board, colour, survey, eyes, &sure, &kept);
        if !lost_some(&kept, &left) {
            break;
        }
        kept = left;
    }
    kept
}
