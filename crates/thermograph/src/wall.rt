//! Walls as lists of break points.

ghost use Rattle.std.specs.Prelude.{◌≡◌, IfOk};
ghost use Rattle.thermograph.specs.inner.Thermographs.{points, AreInBounds};

use crate::breaks::Break;
use dyadic_num::Dyadic;
use item_list::ItemList;
use std::alloc::{AllocError, Global};

/// A wall of a thermograph: its break points `(t, x)`, by `t`.
pub type Wall = ItemList<(Dyadic, Dyadic)>;

/// The wall with these break points.
pub(crate) fn wall_with(alloc: Global, breaks: &[Break]) -> Result<Wall, AllocError>
    requires { AreInBounds breaks.now }
    ensures { IfOk result (λ w. w ≡ points breaks.now) }
{
    let mut wall = Wall::new(alloc);
    for point in breaks {
        let at = Dyadic::from_units(point.at as i128);
        let value = Dyadic::from_units(point.value);
        wall.push((at, value))?;
    }
    Ok(wall)
}
