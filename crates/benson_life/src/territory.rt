//! What lives without answers, and what it counts.

ghost use Rattle.std.specs.Prelude.{ℕ, ◌<◌, length, All, Contains, IfOk};
ghost use Rattle.std.specs.List.Sorted.{IsStrictlyIncreasing};
ghost use Rattle.go_grid.specs.declared.grid.Colour.TheVariants.{Black, White};
ghost use Rattle.go_grid.specs.Chain.{IsSettled};
ghost use Rattle.go_grid.specs.Marks.{Lists, Marks};
ghost use Rattle.go_play.specs.Place.{Stands};
ghost use Rattle.benson_life.specs.Groups.{IsNumberOfGroups};
ghost use Rattle.benson_life.specs.Held.{IsHeld};
ghost use Rattle.benson_life.specs.Life.{IsAlive, IsCounted, IsLargestHealthy};
ghost use Rattle.benson_life.specs.Region.{IsContested};
ghost use Rattle.benson_life.specs.Territory.{IsLife, IsTerritory};

use crate::chain_groups::number_of_groups;
use crate::counted_points::{counted_points, held};
use crate::eyes::all_eyes;
use crate::living_chains::living;
use crate::surveys::survey_of;
use go_grid::{Board, Colour, Point, Points};
use std::alloc::{AllocError, Global};

/// What lives without answers of one colour (Benson 1976), and the points that are counted for it.
#[derive(Drop)]
pub struct Life {
    pub alive: Points,
    pub counted: Points,
}

/// What lives without answers on a board.
#[derive(Drop)]
pub struct Territory {
    pub black: Life,
    pub white: Life,
}

/// What lives of one colour, from one survey.
fn life_of(alloc: Global, board: &Board, colour: Colour) -> Result<Life, AllocError>
    requires { IsSettled board.now }
    ensures { IfOk result (IsLife board.now colour) }
{
    let survey = survey_of(board, colour);
    let eyes = all_eyes(alloc, board, colour, &survey)?;
    let alive = living(board, colour, &survey, &eyes);
    let counted = counted_points(board, colour, &survey, &eyes, &alive);
    Ok(Life { alive, counted })
}

impl Life {
    /// What the points counted for the colour are worth to it.
    pub fn held(&self, alloc: Global, board: &Board, colour: Colour) -> Result<u32, AllocError>
        requires { IsLife board.now colour self.now }
        ensures { IfOk result (IsHeld board.now colour) }
    {
        let counted = self.counted.to_list(alloc)?;
        Ok(held(board, colour, &counted))
    }

    /// The number of groups of the colour on a settled board.
    pub fn groups(&self, alloc: Global, board: &Board, colour: Colour) -> Result<u32, AllocError>
        requires settled { IsSettled board.now }
        requires life { IsLife board.now colour self.now }
        ensures { IfOk result (IsNumberOfGroups board.now colour) }
    {
        number_of_groups(alloc, board, colour, &self.alive, &self.counted)
    }
}

impl Territory {
    /// What lives without answers on a board, and what it counts, from one survey for each colour.
    pub fn of(alloc: Global, board: &Board) -> Result<Territory, AllocError>
        requires { IsSettled board.now }
        ensures { IfOk result (IsTerritory board.now) }
    {
        Ok(Territory {
            black: life_of(alloc, board, Colour::Black)?,
            white: life_of(alloc, board, Colour::White)?,
        })
    }

    /// The points that are neither alive stones nor counted for either colour.
    pub fn contested(&self, board: &Board) -> Points
        requires { IsTerritory board.now self.now }
        ensures { Marks result (IsContested board.now) }
    {
        open_points(
            board,
            &self.black.alive,
            &self.white.alive,
            &self.black.counted,
            &self.white.counted,
        )
    }
}

/// The points that are in none of the sets of alive stones and counted points.
fn open_points(
    board: &Board,
    black_alive: &Points,
    white_alive: &Points,
    black_counted: &Points,
    white_counted: &Points,
) -> Points
    requires black_alive { Marks black_alive.now (IsAlive board.now Black) }
    requires white_alive { Marks white_alive.now (IsAlive board.now White) }
    requires black_counted { Marks black_counted.now (IsCounted board.now Black) }
    requires white_counted { Marks white_counted.now (IsCounted board.now White) }
    ensures { Marks result (IsContested board.now) }
{
    let alive = black_alive.union(white_alive);
    let counted = black_counted.union(white_counted);
    alive.union(&counted).complement(board.size())
}

/// The stones of the colour that live without answers (Benson 1976), lowest first. After every list of legal and
/// unanswered placings of the other colour at points that aren't declared each of them still stands.
pub fn alive(alloc: Global, board: &Board, colour: Colour) -> Result<Vec<Point>, AllocError>
    requires { IsSettled board.now }
    ensures ascending { IfOk result (λ stones. IsStrictlyIncreasing stones.items) }
    ensures largest { IfOk result (λ stones. IsLargestHealthy board.now colour stones.items) }
    ensures stand { IfOk result (λ stones. (s : ℕ) → Contains stones.items s
        → Stands board.now colour s) }
{
    let survey = survey_of(board, colour);
    let eyes = all_eyes(alloc, board, colour, &survey)?;
    living(board, colour, &survey, &eyes).to_list(alloc)
}

/// The set of a list of alive stones.
pub fn alive_set(board: &Board, colour: Colour, alive: &[Point]) -> Points
    requires { IsLargestHealthy board.now colour alive.now }
    ensures { Marks result (IsAlive board.now colour) }
{
    let _size = board.size();
    Points::of(alive)
}

/// The set of a list of counted points.
pub(crate) fn counted_set(board: &Board, colour: Colour, counted: &[Point]) -> Points
    requires { Lists counted.now (IsCounted board.now colour) }
    ensures { Marks result (IsCounted board.now colour) }
{
    let _size = board.size();
    Points::of(counted)
}

/// The points that are counted for the colour, lowest first: those of each region that is vital to an alive chain and
/// next to alive stones of the colour alone, and those that are declared for it. `alive` is what `alive` gives for it.
pub fn counted(
    alloc: Global,
    board: &Board,
    colour: Colour,
    alive: &[Point],
) -> Result<Vec<Point>, AllocError>
    requires settled { IsSettled board.now }
    requires alive { IsLargestHealthy board.now colour alive.now }
    ensures counted { IfOk result (λ points. Lists points.items (IsCounted board.now colour)) }
    ensures on_board { IfOk result (λ points. All (λ p. p < length board.now.cells) points.items) }
{
    let survey = survey_of(board, colour);
    let eyes = all_eyes(alloc, board, colour, &survey)?;
    let alive = alive_set(board, colour, alive);
    counted_points(board, colour, &survey, &eyes, &alive).to_list(alloc)
}

/// The points that are neither alive stones nor counted for either colour. The lists are those that
/// `alive` and `counted` give for the two colours.
pub fn contested(
    board: &Board,
    black_alive: &[Point],
    white_alive: &[Point],
    black_counted: &[Point],
    white_counted: &[Point],
) -> Points
    requires black_alive { IsLargestHealthy board.now Black black_alive.now }
    requires white_alive { IsLargestHealthy board.now White white_alive.now }
    requires black_counted { Lists black_counted.now (IsCounted board.now Black) }
    requires white_counted { Lists white_counted.now (IsCounted board.now White) }
    ensures { Marks result (IsContested board.now) }
{
    open_points(
        board,
        &alive_set(board, Colour::Black, black_alive),
        &alive_set(board, Colour::White, white_alive),
        &counted_set(board, Colour::Black, black_counted),
        &counted_set(board, Colour::White, white_counted),
    )
}
