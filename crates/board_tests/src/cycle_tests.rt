//! The cycle that is shown comes soonest, by a plain search.

ghost use Rattle.std.specs.Prelude.{◌≡◌, ◌<◌};

use crate::asserts::none_wrong;
use drawings::{Drawing, region};
use go_grid::Region;
use local_graph::{GraphError, build};
use local_play::{Links, Local, LocalMove, Steps, list_moves, start};
use std::alloc::{AllocError, Global};
use std::marker::Brand;
use std::sync::ledger::{Blank, Ledger};

/// How many moves lead to the position that returns, and how many from there back to it.
type Cycle = (usize, usize);

/// Marks of the positions that one move leads to from the marked ones.
fn moved(alloc: Global, edges: &[Vec<usize>], from: &[bool]) -> Result<Vec<bool>, AllocError> {
    let mut to = vec![in alloc; false; edges.len()]?;
    for (node, next) in edges.iter().enumerate() {
        if from.get(node) == Some(&true) {
            for place in next {
                if let Some(mark) = to.get_mut(*place) {
                    *mark = true;
                }
            }
        }
    }
    Ok(to)
}

/// The fewest moves, at least one, from one position to another.
fn fewest(
    alloc: Global,
    edges: &[Vec<usize>],
    from: usize,
    to: usize,
) -> Result<Option<usize>, AllocError> {
    let mut reached = vec![in alloc; false; edges.len()]?;
    if let Some(mark) = reached.get_mut(from) {
        *mark = true;
    }
    for moves in 1..edges.len() {
        reached = moved(alloc, edges, &reached)?;
        if reached.get(to) == Some(&true) {
            return Ok(Some(moves));
        }
    }
    Ok(None)
}

/// The cycle through a position.
fn cycle_through(
    alloc: Global,
    edges: &[Vec<usize>],
    node: usize,
) -> Result<Option<Cycle>, AllocError> {
    let before = if node == 0 {
        Some(0)
    } else {
        fewest(alloc, edges, 0, node)?
    };
    match (before, fewest(alloc, edges, node, node)?) {
        (Some(before), Some(around)) => Ok(Some((before, around))),
        _ => Ok(None),
    }
}

/// The better of two cycles.
fn soonest(best: Option<Cycle>, cycle: Option<Cycle>) -> Option<Cycle> {
    match (best, cycle) {
        (Some((a, b)), Some((c, d))) => {
            if c < a || (c == a && d < b) {
                cycle
            } else {
                best
            }
        }
        (None, _) => cycle,
        _ => best,
    }
}

/// The cycle that comes soonest, by a look at each position.
fn plain_cycle(alloc: Global, edges: &[Vec<usize>]) -> Result<Option<Cycle>, AllocError> {
    let mut best = None;
    for node in 0..edges.len() {
        best = soonest(best, cycle_through(alloc, edges, node)?);
    }
    Ok(best)
}

/// Where the moves lead to, with the positions that weren't found before behind the others.
fn leads_to(
    alloc: Global,
    found: &mut Vec<Local>,
    moves: &[LocalMove],
) -> Result<Vec<usize>, AllocError> {
    let mut places = Vec::new(alloc);
    for step in moves {
        let place = match found.iter().position(|known| *known == step.next) {
            Some(place) => place,
            None => {
                found.push(step.next)?;
                found.len().saturating_sub(1)
            }
        };
        places.push(place)?;
    }
    Ok(places)
}

/// Positions that were found, and where the moves of the first of them lead to.
#[derive(Drop)]
struct Search {
    found: Vec<Local>,
    moves: Vec<LocalMove>,
    edges: Vec<Vec<usize>>,
}

/// Notes where the moves of a position lead to.
fn note_edges<L: Ledger>(
    alloc: Global,
    links: &Links,
    from: Local,
    steps: &mut Steps<L>,
    search: &mut Search,
) -> Result<(), AllocError> {
    list_moves(links, from, steps, &mut search.moves)?;
    let places = leads_to(alloc, &mut search.found, &search.moves)?;
    Ok(search.edges.push(places)?)
}

/// Notes the edges of a region's positions, the first thousand of them.
fn note_all<L: Ledger>(
    alloc: Global,
    blank: Blank,
    region: &Region,
    search: &mut Search,
) -> Result<(), AllocError>
    requires name { blank.name ≡ L.name }
    requires parts { blank.parts ≡ L.parts }
    requires some { 0 < blank.parts }
{
    if region.points.len() > 32 {
        return Ok(());
    }
    let links = Links::of(region);
    let mut steps = Steps::<L>::new(blank);
    search.found.push(start(region))?;
    for at in 0..1_000 {
        if let Some(from) = search.found.get(at).copied() {
            note_edges(alloc, &links, from, &mut steps, search)?;
        }
    }
    Ok(())
}

/// The cycle that is shown.
fn shown_cycle<L: Ledger>(
    alloc: Global,
    blank: Blank,
    region: &Region,
) -> Result<Option<Cycle>, AllocError>
    requires name { blank.name ≡ L.name }
    requires parts { blank.parts ≡ L.parts }
    requires some { 0 < blank.parts }
{
    match build(alloc, region, 1_000, &mut Steps::<L>::new(blank)) {
        Err(GraphError::Cycle(moves, back)) => {
            let around = moves.as_slice().len().saturating_sub(back);
            Ok(Some((back, around)))
        }
        Err(GraphError::Memory(error)) => Err(error),
        _ => Ok(None),
    }
}

/// The cycle by the plain search.
fn searched_cycle<L: Ledger>(
    alloc: Global,
    blank: Blank,
    region: &Region,
) -> Result<Option<Cycle>, AllocError>
    requires name { blank.name ≡ L.name }
    requires parts { blank.parts ≡ L.parts }
    requires some { 0 < blank.parts }
{
    let mut search = Search {
        found: Vec::new(alloc),
        moves: Vec::new(alloc),
        edges: Vec::new(alloc),
    };
    note_all::<L>(alloc, blank, region, &mut search)?;
    plain_cycle(alloc, &search.edges)
}

/// Whether both ways to look for a cycle of a region find this one.
fn has_cycle(alloc: Global, region: &Region, want: Option<Cycle>) -> Result<bool, AllocError> {
    let shown = shown_cycle::<Brand>(alloc, Blank::new(1), region)?;
    let searched = searched_cycle::<Brand>(alloc, Blank::new(1), region)?;
    Ok(shown == want && searched == want)
}

/// Columns and rows of a board, marks where Black's and White's stones touch it, and the cycle that comes soonest.
type Row = (u8, u8, &'static [u8], &'static [u8], Option<Cycle>);

static ROWS: [Row; 7] = [
    (2, 1, b"X.", b".X", Some((1, 2))),
    (2, 1, b"XX", b".X", None),
    (3, 1, b"X..", b"..X", Some((1, 3))),
    (4, 1, b"X...", b"...X", Some((1, 4))),
    (2, 2, b"X...", b"...X", Some((1, 4))),
    (2, 2, b"XX..", b"..XX", Some((2, 4))),
    (4, 1, b"XX..", b"..XX", Some((1, 4))),
];

/// Whether a row is so.
fn is_so(alloc: Global, row: &Row) -> Result<bool, AllocError> {
    let drawn = Drawing {
        columns: row.0,
        rows: row.1,
        cells: b"",
        black: row.2,
        white: row.3,
    };
    let region = region(alloc, drawn)?;
    has_cycle(alloc, &region, row.4)
}

/// The first row that isn't so.
fn wrong_row(alloc: Global) -> Option<usize> {
    for (at, row) in ROWS.iter().enumerate() {
        if is_so(alloc, row) != Ok(true) {
            return Some(at);
        }
    }
    None
}

#[test]
fn shows_the_soonest_cycle(rt: HostRuntime) {
    none_wrong(&rt, wrong_row(rt.alloc()));
}
