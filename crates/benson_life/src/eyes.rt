//! Regions that are vital to a chain.

ghost use Rattle.std.specs.Prelude.{◌≡◌, ℕ, ◌<◌, ◌↔◌, ◌⊎◌, true, IfOk, OnOk, Contains};
ghost use Rattle.go_grid.specs.Chain.{IsLiberty, IsSettled};
ghost use Rattle.go_grid.specs.Board.{HasStone, IsEmpty, Lacks};
ghost use Rattle.go_grid.specs.Parts.{label};
ghost use Rattle.benson_life.specs.inner.Eyes.{AreEyes, IsOfChain, IsPairOf, IsVitalPair};
ghost use Rattle.benson_life.specs.Life.{IsVital};
ghost use Rattle.benson_life.specs.inner.Survey.{IsSurvey};

use crate::surveys::Survey;
use go_grid::{Board, Colour, MOST_POINTS, NearPoints, Point, Points, label_of};
use std::alloc::{AllocError, Global};

/// A region that is vital to a chain. Each is named by its lowest point.
#[derive(Clone, Copy)]
pub(crate) struct Eye {
    pub region: Point,
    pub chain: Point,
}

/// Whether a point is a stone of the chain.
fn is_of_chain(survey: &Survey, chain: Point, point: Point) -> bool
    requires { point < MOST_POINTS }
    ensures { (result ≡ true) ↔ IsOfChain survey.now chain point }
{
    survey.stones.contains(point) && label_of(&survey.chains, point).is(chain)
}

/// Whether an empty point is a liberty of the chain.
fn is_liberty(board: &Board, colour: Colour, survey: &Survey, chain: Point, point: Point) -> bool
    requires survey { IsSurvey board.now colour survey.now }
    requires stone { HasStone board.now colour chain }
    requires named { label survey.now.chains chain ≡ chain }
    requires point { IsEmpty board.now point }
    ensures { (result ≡ true) ↔ IsLiberty board.now colour chain point }
{
    let mut around = NearPoints::new();
    around.look_around(board.size(), point);
    for near in around.as_slice() {
        if is_of_chain(survey, chain, *near) {
            return true;
        }
    }
    false
}

/// Whether each empty point of the region is a liberty of the chain.
fn is_vital(board: &Board, colour: Colour, survey: &Survey, region: Point, chain: Point) -> bool
    requires survey { IsSurvey board.now colour survey.now }
    requires lacks { Lacks board.now colour region }
    requires region { label survey.now.regions region ≡ region }
    requires stone { HasStone board.now colour chain }
    requires chain { label survey.now.chains chain ≡ chain }
    ensures { (result ≡ true) ↔ IsVital board.now colour region chain }
{
    for number in 0..board.size().area() {
        let point = Point(number);
        if survey.empties.contains(point)
            && label_of(&survey.regions, point).is(region)
            && !is_liberty(board, colour, survey, chain, point)
        {
            return false;
        }
    }
    true
}

/// Adds the region of an empty point with the chain of another point, where that is a stone and the region is
/// vital to its chain.
fn add_eye(
    board: &Board,
    colour: Colour,
    survey: &Survey,
    point: Point,
    near: Point,
    eyes: &mut Vec<Eye>,
) -> Result<(), AllocError>
    requires survey { IsSurvey board.now colour survey.now }
    requires point { IsEmpty board.now point }
    requires near { near < MOST_POINTS }
    ensures { OnOk result ((e : Eye) → Contains eyes.new.items e
        ↔ (Contains eyes.old.items e ⊎ IsPairOf board.now colour survey.now point near e)) }
{
    let _size = board.size();
    if survey.stones.contains(near) {
        let region = label_of(&survey.regions, point);
        let chain = label_of(&survey.chains, near);
        if is_vital(board, colour, survey, region, chain) {
            eyes.push(Eye { region, chain })?;
        }
    }
    Ok(())
}

/// Adds the region of an empty point with each chain to which it is vital.
fn add_eyes(
    board: &Board,
    colour: Colour,
    survey: &Survey,
    point: Point,
    eyes: &mut Vec<Eye>,
) -> Result<(), AllocError>
    requires survey { IsSurvey board.now colour survey.now }
    requires point { IsEmpty board.now point }
    ensures { OnOk result ((e : Eye) → Contains eyes.new.items e
        ↔ (Contains eyes.old.items e
        ⊎ (IsVitalPair board.now colour survey.now e
        × (e.region ≡ label survey.now.regions point)))) }
{
    let mut around = NearPoints::new();
    around.look_around(board.size(), point);
    for near in around.as_slice() {
        add_eye(board, colour, survey, point, *near, eyes)?;
    }
    Ok(())
}

/// Each region of the colour with each chain to which it is vital. Since each region of a settled board
/// has an empty point, only chains next to its first one are tried.
pub(crate) fn all_eyes(
    alloc: Global,
    board: &Board,
    colour: Colour,
    survey: &Survey,
) -> Result<Vec<Eye>, AllocError>
    requires settled { IsSettled board.now }
    requires survey { IsSurvey board.now colour survey.now }
    ensures { IfOk result (λ eyes. AreEyes board.now colour survey.now eyes.items) }
{
    let mut eyes = Vec::new(alloc);
    let mut seen = Points::new();
    for number in 0..board.size().area() {
        let point = Point(number);
        let region = label_of(&survey.regions, point);
        if survey.empties.contains(point) && !seen.contains(region) {
            seen.insert(region);
            add_eyes(board, colour, survey, point, &mut eyes)?;
        }
    }
    Ok(eyes)
}
