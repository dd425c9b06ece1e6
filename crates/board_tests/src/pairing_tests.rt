//! Shapes of thousands of small regions, against a plain search for a pairing of their places.

ghost use Rattle.std.specs.Prelude.{◌≤◌, length};

use drawings::{JoinedDrawing, joined_region};
use go_grid::{Cell, Region, Touch};
use local_play::start;
use region_book::{Shape, shape};
use std::alloc::{AllocError, Global};

/// A symmetry of the square: columns and rows change places, and then the columns, and the rows, are turned over.
#[derive(Clone, Copy)]
struct Turning {
    exchange: bool,
    columns: bool,
    rows: bool,
}

/// Where links lead: up, left, right and down.
const DIRECTIONS: [u8; 4] = [0, 1, 2, 3];

/// The direction that a symmetry makes of a direction.
fn turned(turning: Turning, direction: u8) -> u8 {
    let exchanged = match direction {
        0 if turning.exchange => 1,
        1 if turning.exchange => 0,
        2 if turning.exchange => 3,
        3 if turning.exchange => 2,
        other => other,
    };
    match exchanged {
        0 if turning.rows => 3,
        3 if turning.rows => 0,
        1 if turning.columns => 2,
        2 if turning.columns => 1,
        other => other,
    }
}

/// Where a place's link leads.
fn link(touch: &Touch, direction: u8) -> Option<u16> {
    match direction {
        0 => touch.up,
        1 => touch.left,
        2 => touch.right,
        _ => touch.down,
    }
}

/// The partners of at most three places.
type Partners = [Option<u16>; 3];

fn partner_of(partners: &Partners, place: u16) -> Option<u16> {
    partners.get(usize::from(place)).copied().flatten()
}

/// Notes the partner of the place to which a link leads: that to which the partner's link leads.
fn note(
    partners: &mut Partners,
    a: &[Touch],
    b: &[Touch],
    turning: Turning,
    place: u16,
    direction: u8,
) {
    let Some(partner) = partner_of(partners, place) else {
        return;
    };
    let (Some(near), Some(other)) = (a.get(usize::from(place)), b.get(usize::from(partner))) else {
        return;
    };
    if let Some(next) = link(near, direction) {
        let next = usize::from(next);
        if next < partners.len() {
            partners[next] = link(other, turned(turning, direction));
        }
    }
}

/// The partners of all places, along links, where the first place has this one.
fn partners_from(a: &[Touch], b: &[Touch], turning: Turning, first: u16) -> Partners {
    let mut partners = [None; 3];
    partners[0] = Some(first);
    for _ in 0..3 {
        for place in 0..3 {
            for direction in DIRECTIONS {
                note(&mut partners, a, b, turning, place, direction);
            }
        }
    }
    partners
}

/// The cell, or that of the other colour.
fn after(cell: Cell, colours: bool) -> Cell {
    match cell {
        Cell::Black if colours => Cell::White,
        Cell::White if colours => Cell::Black,
        other => other,
    }
}

/// Whether two places hold the same and have the same alive neighbours, with the colours exchanged or not.
fn are_alike(a: &Region, b: &Region, place: u16, partner: u16, colours: bool) -> bool {
    let (place, partner) = (usize::from(place), usize::from(partner));
    let (Some(held), Some(other)) = (a.cells.get(place), b.cells.get(partner)) else {
        return false;
    };
    let (Some(near), Some(beside)) = (a.touch.get(place), b.touch.get(partner)) else {
        return false;
    };
    let marks = if colours {
        (near.white, near.black)
    } else {
        (near.black, near.white)
    };
    after(*held, colours) == *other && marks == (beside.black, beside.white)
}

/// Whether all links of a place lead to the partners of where the partner's links lead.
fn are_linked_alike(
    a: &[Touch],
    b: &[Touch],
    partners: &Partners,
    turning: Turning,
    place: u16,
) -> bool {
    let Some(partner) = partner_of(partners, place) else {
        return false;
    };
    let (Some(near), Some(other)) = (a.get(usize::from(place)), b.get(usize::from(partner))) else {
        return false;
    };
    DIRECTIONS.iter().all(|direction| {
        let to = link(near, *direction).map(|next| partner_of(partners, next));
        to == link(other, turned(turning, *direction)).map(Some)
    })
}

/// Whether the symmetry carries the first region onto the second, the first place onto this one.
fn carries(a: &Region, b: &Region, turning: Turning, colours: bool, first: u16) -> bool {
    if !are_alike(a, b, 0, first, colours) {
        return false;
    }
    let partners = partners_from(&a.touch, &b.touch, turning, first);
    (0..3).all(|place| match partner_of(&partners, place) {
        Some(partner) => {
            are_alike(a, b, place, partner, colours)
                && are_linked_alike(&a.touch, &b.touch, &partners, turning, place)
        }
        None => false,
    })
}

/// Whether some pairing carries the one onto the other.
fn have_one_shape(a: &Region, b: &Region) -> bool {
    for exchange in [false, true] {
        for columns in [false, true] {
            for rows in [false, true] {
                let turning = Turning {
                    exchange,
                    columns,
                    rows,
                };
                for colours in [false, true] {
                    if (0..3).any(|first| carries(a, b, turning, colours, first)) {
                        return true;
                    }
                }
            }
        }
    }
    false
}

/// Straight and bent regions of three points.
static POINTS: [&[u16]; 6] = [
    &[0, 1, 2],
    &[3, 7, 11],
    &[0, 1, 4],
    &[0, 1, 5],
    &[0, 4, 5],
    &[1, 4, 5],
];

/// What the digits of a number put on three points: cells, and alive neighbours of both colours.
fn region_of(alloc: Global, points: &[u16], number: usize) -> Result<Region, AllocError> {
    let letter = |digit: usize| match digit % 3 {
        0 => b'.',
        1 => b'X',
        _ => b'O',
    };
    let mark = |digit: usize| if digit % 2 == 0 { b'.' } else { b'X' };
    let cells = [letter(number), letter(number / 3), letter(number / 9)];
    let black = [mark(number / 27), mark(number / 54), mark(number / 108)];
    let white = [mark(number / 216), mark(number / 432), mark(number / 864)];
    joined_region(
        alloc,
        JoinedDrawing {
            points,
            cells: &cells,
            black: &black,
            white: &white,
        },
    )
}

/// A region and the shape of its opening.
#[derive(Drop)]
struct Shaped {
    region: Region,
    shape: Shape,
}

/// A region with the shape of its opening, if it has at most 32 points.
fn with_shape(alloc: Global, region: Region) -> Result<Option<Shaped>, AllocError> {
    if region.points.len() > 32 {
        return Ok(None);
    }
    let (shape, _turn) = shape(alloc, &region, start(&region))?;
    Ok(Some(Shaped { region, shape }))
}

/// Adds every fifth of the regions of these points.
fn add_shaped(alloc: Global, points: &[u16], all: &mut Vec<Shaped>) -> Result<(), AllocError> {
    for number in (0..1728).step_by(5) {
        let region = region_of(alloc, points, number)?;
        if let Some(shaped) = with_shape(alloc, region)? {
            all.push(shaped)?;
        }
    }
    Ok(())
}

/// Every fifth of these regions.
fn regions_with_shapes(alloc: Global) -> Result<Vec<Shaped>, AllocError> {
    let mut all = Vec::new(alloc);
    for points in &POINTS {
        add_shaped(alloc, points, &mut all)?;
    }
    Ok(all)
}

#[test]
fn shapes_are_those_of_pairings(rt: HostRuntime) -> Result<(), AllocError> {
    let all = regions_with_shapes(rt.alloc())?;
    let mut same = 0_u32;
    for a in &all {
        for b in all.iter().step_by(4) {
            let paired = have_one_shape(&a.region, &b.region);
            assert!(rt; (a.shape == b.shape) == paired);
            if paired {
                same = same.saturating_add(1);
            }
        }
    }
    assert!(rt; all.len() == 2076 && same > 519);
    Ok(())
}
