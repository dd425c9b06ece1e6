//! Worked regions.

ghost use Rattle.std.specs.Prelude.{◌≡◌, ◌<◌};

use crate::asserts::none_wrong;
use drawings::{Drawing, region};
use go_grid::{Colour, Region};
use local_graph::{Graph, GraphError, build};
use local_play::{LocalMove, Steps, expand, start};
use std::alloc::{AllocError, Global};
use std::marker::Brand;
use std::sync::ledger::{Blank, Ledger};

/// Two groups of the players meet at one point.
const ONE_POINT: Drawing = Drawing {
    columns: 1,
    rows: 1,
    cells: b".",
    black: b"X",
    white: b"X",
};

/// Two points, one of which only Black's stones touch.
const TWO_POINTS: Drawing = Drawing {
    columns: 2,
    rows: 1,
    cells: b"..",
    black: b"XX",
    white: b".X",
};

/// The same with a white stone on the first point.
const WHITE_STONE: Drawing = Drawing {
    cells: b"O.",
    ..TWO_POINTS
};

/// Two points, each touched by one player's stones: stones on them take each other.
const ENDLESS: Drawing = Drawing {
    columns: 2,
    rows: 1,
    cells: b"..",
    black: b"X.",
    white: b".X",
};

/// Three points, of which White's stones touch the last.
const THREE_POINTS: Drawing = Drawing {
    columns: 3,
    rows: 1,
    cells: b"...",
    black: b"XXX",
    white: b"..X",
};

/// A whole board without a stone.
const WHOLE_BOARD: Drawing = Drawing {
    columns: 6,
    rows: 6,
    cells: b"",
    black: b"",
    white: b"",
};

/// What building a region's graph comes to.
#[derive(Clone, Copy, PartialEq, Eq, Debug)]
enum Outcome {
    /// So many positions, and moves of the opening.
    Graph(usize, usize),
    Points(u16),
    Positions,
    Cycle,
}

/// The number of moves of the opening.
fn first_moves(graph: &Graph) -> usize {
    if graph.len() > 0 {
        graph.edges(0).len()
    } else {
        0
    }
}

/// What a failure to build a graph comes to.
fn failed(error: GraphError) -> Result<Outcome, AllocError> {
    match error {
        GraphError::Points(points) => Ok(Outcome::Points(points)),
        GraphError::Positions => Ok(Outcome::Positions),
        GraphError::Cycle(_moves, _back) => Ok(Outcome::Cycle),
        GraphError::Memory(error) => Err(error),
    }
}

/// The outcome for a region and a limit.
fn built<L: Ledger>(
    alloc: Global,
    blank: Blank,
    region: &Region,
    limit: u32,
) -> Result<Outcome, AllocError>
    requires name { blank.name ≡ L.name }
    requires parts { blank.parts ≡ L.parts }
    requires some { 0 < blank.parts }
{
    match build(alloc, region, limit, &mut Steps::<L>::new(blank)) {
        Ok(graph) => Ok(Outcome::Graph(graph.len(), first_moves(&graph))),
        Err(error) => failed(error),
    }
}

/// The outcome for a drawn region and a limit.
fn answer<L: Ledger>(
    alloc: Global,
    blank: Blank,
    drawn: Drawing,
    limit: u32,
) -> Result<Outcome, AllocError>
    requires name { blank.name ≡ L.name }
    requires parts { blank.parts ≡ L.parts }
    requires some { 0 < blank.parts }
{
    let region = region(alloc, drawn)?;
    built::<L>(alloc, blank, &region, limit)
}

/// The drawing of a region, a limit, and what comes of building its graph.
static GRAPHS: [(Drawing, u32, Outcome); 8] = [
    (ONE_POINT, 3, Outcome::Graph(3, 2)),
    (ONE_POINT, 2, Outcome::Positions),
    (TWO_POINTS, 8, Outcome::Graph(8, 4)),
    (WHITE_STONE, 4, Outcome::Graph(4, 2)),
    (THREE_POINTS, 22, Outcome::Graph(22, 6)),
    (THREE_POINTS, 21, Outcome::Positions),
    (ENDLESS, 100, Outcome::Cycle),
    (WHOLE_BOARD, 100, Outcome::Points(36)),
];

/// The first row of the table of graphs that isn't so.
fn wrong_graph(alloc: Global) -> Option<usize> {
    for (at, row) in GRAPHS.iter().enumerate() {
        if answer::<Brand>(alloc, Blank::new(1), row.0, row.1) != Ok(row.2) {
            return Some(at);
        }
    }
    None
}

#[test]
fn builds(rt: HostRuntime) {
    none_wrong(&rt, wrong_graph(rt.alloc()));
}

/// Whether a move is of the colour, at the place, and takes so many stones.
fn is(step: &LocalMove, want: (Colour, u8, u8)) -> bool {
    step.colour == want.0 && step.place == want.1 && step.taken == want.2
}

/// Whether the first moves of a region are the two, and no others.
fn has_moves<L: Ledger>(
    alloc: Global,
    blank: Blank,
    drawn: Drawing,
    first: (Colour, u8, u8),
    second: (Colour, u8, u8),
) -> Result<bool, AllocError>
    requires name { blank.name ≡ L.name }
    requires parts { blank.parts ≡ L.parts }
    requires some { 0 < blank.parts }
{
    let region = region(alloc, drawn)?;
    if region.points.len() > 32 {
        return Ok(false);
    }
    let moves = expand(alloc, &region, start(&region), &mut Steps::<L>::new(blank))?;
    match moves.as_slice() {
        [a, b] => Ok(is(a, first) && is(b, second)),
        _ => Ok(false),
    }
}

/// The first of a one-point region and one with a white stone whose first moves are others.
fn wrong_moves(alloc: Global) -> Option<usize> {
    for (at, row) in MOVES.iter().enumerate() {
        if has_moves::<Brand>(alloc, Blank::new(1), row.0, row.1, row.2) != Ok(true) {
            return Some(at);
        }
    }
    None
}

/// A colour, a place, and how many stones are taken.
type Placed = (Colour, u8, u8);

/// The drawing of a region, and its two first moves.
static MOVES: [(Drawing, Placed, Placed); 2] = [
    (ONE_POINT, (Colour::Black, 0, 0), (Colour::White, 0, 0)),
    (WHITE_STONE, (Colour::Black, 1, 1), (Colour::White, 1, 0)),
];

#[test]
fn expands(rt: HostRuntime) {
    none_wrong(&rt, wrong_moves(rt.alloc()));
}
