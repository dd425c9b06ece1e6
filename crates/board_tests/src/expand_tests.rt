//! The moves of random positions, against a plain body that looks at one cell after another.

ghost use Rattle.std.specs.Prelude.{◌≡◌, ◌<◌};

use crate::asserts::none_wrong;
use drawings::{Drawing, region};
use go_grid::{Cell, Colour, Region, Touch};
use local_play::{Links, Local, LocalMove, Steps, list_moves};
use std::alloc::{AllocError, Global};
use std::marker::Brand;
use std::sync::ledger::{Blank, Ledger};

/// A corridor, a corridor that is part of two rows, a room, and a region with no alive stone.
static DRAWINGS: [Drawing; 5] = [
    Drawing {
        columns: 7,
        rows: 1,
        cells: b"",
        black: b"XXXXXXX",
        white: b"......X",
    },
    Drawing {
        columns: 5,
        rows: 2,
        cells: b"",
        black: b"XX...X....",
        white: b"....X....X",
    },
    Drawing {
        columns: 3,
        rows: 3,
        cells: b"",
        black: b"X.X......",
        white: b"......X..",
    },
    Drawing {
        columns: 4,
        rows: 3,
        cells: b"",
        black: b"",
        white: b"...........X",
    },
    Drawing {
        columns: 3,
        rows: 2,
        cells: b"",
        black: b"",
        white: b"",
    },
];

/// Whether a place holds a cell.
fn holds(cells: &[Cell], place: usize, cell: Cell) -> bool {
    match cells.get(place) {
        Some(held) => held.is(cell),
        None => false,
    }
}

/// Makes a place hold a cell.
fn put(cells: &mut [Cell], place: usize, cell: Cell) {
    if let Some(held) = cells.get_mut(place) {
        *held = cell;
    }
}

/// Marks a linked place that holds the cell. Whether it is new.
fn mark(marks: &mut [bool], cells: &[Cell], link: Option<u16>, cell: Cell) -> bool {
    let Some(number) = link else {
        return false;
    };
    let place = usize::from(number);
    if !holds(cells, place, cell) {
        return false;
    }
    match marks.get_mut(place) {
        Some(mark) => {
            let new = !*mark;
            *mark = true;
            new
        }
        None => false,
    }
}

/// Marks what the marked places are linked to and holds the cell. Whether there is anything new.
fn spread(touch: &[Touch], marks: &mut [bool], cells: &[Cell], cell: Cell) -> bool {
    let mut more = false;
    for (place, near) in touch.iter().enumerate() {
        if marks.get(place) == Some(&true) {
            let up = mark(marks, cells, near.up, cell);
            let left = mark(marks, cells, near.left, cell);
            let right = mark(marks, cells, near.right, cell);
            let down = mark(marks, cells, near.down, cell);
            more = more | up | left | right | down;
        }
    }
    more
}

/// Marks of the places of a chain.
fn chain(
    alloc: Global,
    touch: &[Touch],
    cells: &[Cell],
    start: usize,
    cell: Cell,
) -> Result<Vec<bool>, AllocError> {
    let mut marks = vec![in alloc; false; cells.len()]?;
    if let Some(mark) = marks.get_mut(start) {
        *mark = true;
    }
    for _round in 0..touch.len() {
        if !spread(touch, &mut marks, cells, cell) {
            break;
        }
    }
    Ok(marks)
}

/// Whether a link leads to an empty place.
fn is_open(cells: &[Cell], link: Option<u16>) -> bool {
    match link {
        Some(place) => holds(cells, usize::from(place), Cell::Empty),
        None => false,
    }
}

/// Whether some marked place is linked to an empty one, or next to an alive stone of the cell's colour.
fn is_free(touch: &[Touch], cells: &[Cell], marks: &[bool], cell: Cell) -> bool {
    for (place, near) in touch.iter().enumerate() {
        if marks.get(place) == Some(&true) {
            let beside = (near.black && cell.is(Cell::Black))
                || (near.white && cell.is(Cell::White));
            let sides = is_open(cells, near.left) || is_open(cells, near.right);
            if beside || sides || is_open(cells, near.up) || is_open(cells, near.down) {
                return true;
            }
        }
    }
    false
}

/// Takes a linked chain of the cell off, if it isn't free. How many stones it had.
fn take(
    alloc: Global,
    touch: &[Touch],
    cells: &mut [Cell],
    link: Option<u16>,
    cell: Cell,
) -> Result<u8, AllocError> {
    let Some(number) = link else {
        return Ok(0);
    };
    let place = usize::from(number);
    if !holds(cells, place, cell) {
        return Ok(0);
    }
    let marks = chain(alloc, touch, cells, place, cell)?;
    if is_free(touch, cells, &marks, cell) {
        return Ok(0);
    }
    let mut taken = 0u8;
    for (place, mark) in marks.iter().enumerate() {
        if *mark {
            put(cells, place, Cell::Empty);
            taken = taken.wrapping_add(1);
        }
    }
    Ok(taken)
}

/// Places a stone and takes what it takes off. The number of stones taken, if it is legal.
fn play(
    alloc: Global,
    touch: &[Touch],
    cells: &mut [Cell],
    place: usize,
    own: Cell,
    foe: Cell,
) -> Result<Option<u8>, AllocError> {
    let Some(near) = touch.get(place).copied() else {
        return Ok(None);
    };
    if !holds(cells, place, Cell::Empty) {
        return Ok(None);
    }
    put(cells, place, own);
    let up = take(alloc, touch, cells, near.up, foe)?;
    let left = take(alloc, touch, cells, near.left, foe)?;
    let right = take(alloc, touch, cells, near.right, foe)?;
    let down = take(alloc, touch, cells, near.down, foe)?;
    let marks = chain(alloc, touch, cells, place, own)?;
    if is_free(touch, cells, &marks, own) {
        let sides = left.wrapping_add(right);
        return Ok(Some(up.wrapping_add(down).wrapping_add(sides)));
    }
    Ok(None)
}

/// How many of the listed moves, from one on, are a colour's moves by the plain body, or nothing where they differ.
fn matched(
    alloc: Global,
    touch: &[Touch],
    cells: &[Cell],
    colour: Colour,
    moves: &[LocalMove],
    from: usize,
) -> Result<Option<usize>, AllocError> {
    let (own, foe) = match colour {
        Colour::Black => (Cell::Black, Cell::White),
        Colour::White => (Cell::White, Cell::Black),
    };
    let mut at = from;
    for place in 0..touch.len() {
        let mut after = Vec::new(alloc);
        after.extend_from_slice(cells)?;
        if let Some(taken) = play(alloc, touch, &mut after, place, own, foe)? {
            let Some(found) = moves.get(at) else {
                return Ok(None);
            };
            if after.len() > 32 || found.colour != colour || usize::from(found.place) != place {
                return Ok(None);
            }
            if found.taken != taken || found.next != Local::of(&after) {
                return Ok(None);
            }
            at = at.saturating_add(1);
        }
    }
    Ok(Some(at))
}

/// Whether the listed moves of a position are those of the plain body.
fn agrees(
    alloc: Global,
    touch: &[Touch],
    cells: &[Cell],
    moves: &[LocalMove],
) -> Result<bool, AllocError> {
    let Some(black) = matched(alloc, touch, cells, Colour::Black, moves, 0)? else {
        return Ok(false);
    };
    let white = matched(alloc, touch, cells, Colour::White, moves, black)?;
    Ok(white == Some(moves.len()))
}

/// The next of a row of numbers that look random.
fn next_number(number: u64) -> u64 {
    number
        .wrapping_mul(6364136223846793005)
        .wrapping_add(1442695040888963407)
}

/// A random position of so many places, and the number that follows.
fn random_cells(alloc: Global, places: usize, number: u64) -> Result<(Vec<Cell>, u64), AllocError> {
    let mut cells = Vec::new(alloc);
    let mut last = number;
    for _place in 0..places {
        last = next_number(last);
        cells.push(match (last >> 33) % 3 {
            0 => Cell::Empty,
            1 => Cell::Black,
            _ => Cell::White,
        })?;
    }
    Ok((cells, last))
}

/// Whether the moves that are listed of a position of at most 32 places are those of the plain body.
fn is_listed<L: Ledger>(
    alloc: Global,
    touch: &[Touch],
    links: &Links,
    cells: &[Cell],
    steps: &mut Steps<L>,
) -> Result<bool, AllocError> {
    if cells.len() > 32 {
        return Ok(false);
    }
    let mut moves = Vec::new(alloc);
    list_moves(links, Local::of(cells), steps, &mut moves)?;
    agrees(alloc, touch, cells, &moves)
}

/// How many of so many random positions of a region have the moves of the plain body.
fn agreeing<L: Ledger>(
    alloc: Global,
    blank: Blank,
    region: &Region,
    positions: u32,
) -> Result<u32, AllocError>
    requires name { blank.name ≡ L.name }
    requires parts { blank.parts ≡ L.parts }
    requires some { 0 < blank.parts }
{
    if region.points.len() > 32 {
        return Ok(0);
    }
    let links = Links::of(region);
    let mut steps = Steps::<L>::new(blank);
    let mut number = 1;
    let mut good = 0u32;
    for _position in 0..positions {
        let (cells, last) = random_cells(alloc, region.touch.len(), number)?;
        number = last;
        if is_listed(alloc, &region.touch, &links, &cells, &mut steps)? {
            good = good.wrapping_add(1);
        }
    }
    Ok(good)
}

/// Whether 600 random positions of the drawn region have the moves of the plain body.
fn all_agree(alloc: Global, drawn: Drawing) -> Result<bool, AllocError> {
    let region = region(alloc, drawn)?;
    Ok(agreeing::<Brand>(alloc, Blank::new(1), &region, 600)? == 600)
}

/// The first of the drawings with a position that has others.
fn wrong_drawing(alloc: Global) -> Option<usize> {
    for (at, drawn) in DRAWINGS.iter().enumerate() {
        if all_agree(alloc, *drawn) != Ok(true) {
            return Some(at);
        }
    }
    None
}

#[test]
fn lists_the_moves_of_the_plain_body(rt: HostRuntime) {
    none_wrong(&rt, wrong_drawing(rt.alloc()));
}
