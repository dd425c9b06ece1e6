//! Names of points.

ghost use Rattle.std.specs.Prelude.{◌≡◌, ◌<◌, ◌*◌, ◌++◌, OnOk, string_bytes};
ghost use Rattle.fault_words.specs.Naming.{name_by};

use board_words::write_name;
use go_grid::{Point, Size};
use gtp_words::point_text;
use std::alloc::{AllocError, Global};

/// How points are named: by two letters, as in a record, or as the Go Text Protocol does.
#[derive(Clone, Copy, Debug, PartialEq, Eq)]
pub enum Naming {
    Letters,
    Gtp,
}

/// Appends the name of a point of a board of the size.
pub fn write_point_name(
    alloc: Global,
    text: &mut String,
    naming: Naming,
    size: Size,
    point: Point,
) -> Result<(), AllocError>
    requires { point < size.columns * size.rows }
    ensures { OnOk result (string_bytes text.new ≡ string_bytes text.old ++ name_by naming
        size.columns size.rows point) }
{
    match naming {
        Naming::Letters => write_name(text, size, point),
        Naming::Gtp => {
            let name = point_text(alloc, size, point)?;
            text.push_str(&name)
        }
    }
}
