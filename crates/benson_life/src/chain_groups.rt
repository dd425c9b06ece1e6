//! Groups of alive stones.

ghost use Rattle.std.specs.Prelude.{◌≡◌, ℕ, ◌*◌, ◌<◌, ◌≤◌, IfOk};
ghost use Rattle.go_grid.specs.Chain.{IsSettled};
ghost use Rattle.go_grid.specs.Marks.{IsMarked, IsWithin, Lists, Marks};
ghost use Rattle.go_grid.specs.Parts.{label};
ghost use Rattle.benson_life.specs.Groups.{IsLeader, IsNumberOfGroups};
ghost use Rattle.benson_life.specs.Life.{IsAlive, IsCounted, IsLargestHealthy};

use crate::territory::{alive_set, counted_set};
use go_grid::{Board, Colour, Labels, MOST_POINTS, Point, Points, Size, components, label_of};
use std::alloc::{AllocError, Global};

/// The lowest point of a set with each label.
fn firsts(size: Size, of: &Points, labels: &Labels) -> Points
    requires within { IsWithin (size.columns * size.rows) of.now }
    requires labels { (p : ℕ) → IsMarked of.now p → label labels.now p < MOST_POINTS }
    ensures { Marks result (λ p. IsMarked of.now p
        × ((q : ℕ) → IsMarked of.now q → label labels.now q ≡ label labels.now p → p ≤ q)) }
{
    let mut seen = Points::new();
    let mut found = Points::new();
    for number in 0..size.area() {
        let point = Point(number);
        let part = label_of(labels, point);
        if of.contains(point) && !seen.contains(part) {
            seen.insert(part);
            found.insert(point);
        }
    }
    found
}

/// The lowest stone of each group. What joins the stones of a group are walks over alive stones and counted points.
fn leaders(board: &Board, colour: Colour, alive: &Points, counted: &Points) -> Points
    requires settled { IsSettled board.now }
    requires alive { Marks alive.now (IsAlive board.now colour) }
    requires counted { Marks counted.now (IsCounted board.now colour) }
    ensures { Marks result (IsLeader board.now colour) }
{
    let size = board.size();
    let labels = components(size, &alive.union(counted));
    firsts(size, alive, &labels)
}

/// The number of groups of a colour, from the sets of its alive stones and of the points that are counted for it.
pub(crate) fn number_of_groups(
    alloc: Global,
    board: &Board,
    colour: Colour,
    alive: &Points,
    counted: &Points,
) -> Result<u32, AllocError>
    requires settled { IsSettled board.now }
    requires alive { Marks alive.now (IsAlive board.now colour) }
    requires counted { Marks counted.now (IsCounted board.now colour) }
    ensures { IfOk result (IsNumberOfGroups board.now colour) }
{
    let _size = board.size();
    let leaders = leaders(board, colour, alive, counted).to_list(alloc)?;
    Ok(leaders.len() as u32)
}

/// The number of groups of the colour on a settled board. Alive stones are of one group where chains and regions of counted points link
/// them. The lists are those that `alive` and `counted` give for the colour.
pub fn groups(
    alloc: Global,
    board: &Board,
    colour: Colour,
    alive: &[Point],
    counted: &[Point],
) -> Result<u32, AllocError>
    requires settled { IsSettled board.now }
    requires alive { IsLargestHealthy board.now colour alive.now }
    requires counted { Lists counted.now (IsCounted board.now colour) }
    ensures { IfOk result (IsNumberOfGroups board.now colour) }
{
    let alive = alive_set(board, colour, alive);
    let counted = counted_set(board, colour, counted);
    number_of_groups(alloc, board, colour, &alive, &counted)
}
