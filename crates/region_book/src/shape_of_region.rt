//! The shape of a local position.

ghost use Rattle.std.specs.Prelude.{◌≡◌, ℕ, ◌≤◌, List, length, IfOk};
ghost use Rattle.go_grid.specs.declared.grid.Cell.{Cell};
ghost use Rattle.local_play.specs.Moves.{IsPosition};
ghost use Rattle.local_play.specs.Packed.{pack};
ghost use Rattle.region_book.specs.Image.{IsShape};

use crate::images::{least_image, places_of};
use crate::shapes::{Shape, Turn};
use go_grid::Region;
use local_play::Local;
use std::alloc::{AllocError, Global};

/// The shape of a position of the region, which has at most 32 points, and how the position is turned into it.
pub fn shape(alloc: Global, region: &Region, from: Local) -> Result<(Shape, Turn), AllocError>
    requires few { length region.now.points ≤ 32 }
    requires from { IsPosition (length region.now.points) from }
    ensures { (cells : List Cell) → length cells ≡ length region.now.points → from ≡ pack cells
        → IfOk result (λ x. IsShape region.now cells x.0.spots.items x.1) }
{
    let cells = from.cells();
    let image = least_image(alloc, region, &cells)?;
    let places = places_of(region, &cells, &image);
    let turn = Turn {
        places,
        colours: image.colours,
    };
    Ok((Shape { spots: image.spots }, turn))
}
