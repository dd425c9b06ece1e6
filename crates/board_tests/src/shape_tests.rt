//! Worked shapes.

ghost use Rattle.std.specs.Prelude.{◌≤◌, length};

use crate::asserts::none_wrong;
use drawings::{JoinedDrawing, joined_region};
use local_play::start;
use region_book::{Shape, Turn, shape};
use std::alloc::{AllocError, Global};

/// Points of a small board, what they hold, and next to which of them alive stones of Black and of White stand.
type Drawn = (&'static [u16], &'static [u8], &'static [u8], &'static [u8]);

/// The shape of what a drawing shows.
fn shape_of(alloc: Global, drawn: Drawn) -> Result<(Shape, Turn), AllocError> {
    let (points, cells, black, white) = drawn;
    let drawing = JoinedDrawing {
        points,
        cells,
        black,
        white,
    };
    let region = joined_region(alloc, drawing)?;
    if region.points.len() > 32 {
        return Err(AllocError);
    }
    shape(alloc, &region, start(&region))
}

/// A corridor of three points with a black stone at its closed end.
const CORRIDOR: Drawn = (&[0, 1, 2], b"X..", b".XX", b"X..");

const FROM_RIGHT: Drawn = (&[5, 6, 7], b"..X", b"XX.", b"..X");

const EXCHANGED: Drawn = (&[3, 7, 11], b"O..", b"X..", b".XX");

const BENT: Drawn = (&[0, 1, 4], b".X.", b"X.X", b".X.");

const LONG: Drawn = (&[0, 4, 8, 9], b"O...", b"XX..", b"...X");

/// The other seven images of the long bent one.
static IMAGES: [Drawn; 7] = [
    (&[1, 5, 8, 9], b"O...", b"XX..", b"..X."),
    (&[0, 1, 4, 8], b"...O", b"..XX", b".X.."),
    (&[4, 5, 9, 13], b"...O", b"..XX", b"X..."),
    (&[0, 1, 2, 6], b"O...", b"XX..", b"...X"),
    (&[2, 4, 5, 6], b".O..", b".XX.", b"X..."),
    (&[0, 1, 2, 4], b"..O.", b".XX.", b"...X"),
    (&[4, 8, 9, 10], b"...O", b"..XX", b"X..."),
];

/// Whether a drawing has a first one's shape, its colours the same way round, and the first place at the same one.
fn likeness(
    alloc: Global,
    first: &(Shape, Turn),
    drawn: Drawn,
) -> Result<(bool, bool, bool), AllocError> {
    let (shape, turn) = shape_of(alloc, drawn)?;
    Ok((
        shape == first.0,
        turn.colours == first.1.colours,
        turn.places[0] == first.1.places[0],
    ))
}

/// Whether the corridor has the shape of its images, and the bent region another.
fn is_told(alloc: Global, corridor: &(Shape, Turn)) -> bool {
    matches!(likeness(alloc, corridor, FROM_RIGHT), Ok((true, true, _)))
        && matches!(
            likeness(alloc, corridor, EXCHANGED),
            Ok((true, false, true))
        )
        && matches!(likeness(alloc, corridor, BENT), Ok((false, _, _)))
}

#[test]
fn tells_shapes(rt: HostRuntime) -> Result<(), AllocError> {
    let corridor = shape_of(rt.alloc(), CORRIDOR)?;
    assert!(rt; is_told(rt.alloc(), &corridor));
    Ok(())
}

/// The first of the images that hasn't the shape, or has its colours the other way round.
fn wrong_image(alloc: Global, long: &(Shape, Turn)) -> Option<usize> {
    for (at, drawn) in IMAGES.iter().enumerate() {
        if !matches!(likeness(alloc, long, *drawn), Ok((true, true, _))) {
            return Some(at);
        }
    }
    None
}

#[test]
fn images_have_the_shape(rt: HostRuntime) -> Result<(), AllocError> {
    let long = shape_of(rt.alloc(), LONG)?;
    none_wrong(&rt, wrong_image(rt.alloc(), &long));
    Ok(())
}
