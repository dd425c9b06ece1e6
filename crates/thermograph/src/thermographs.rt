//! Thermographs of the games of a store.

ghost use Rattle.std.specs.Prelude.{◌≡◌, ◌<◌, ◌≤◌, [], ◌∷◌, ◌++◌, length, IfOk, IfErr, OnOk};
ghost use Rattle.short_games.specs.Tree.{tree_at};
ghost use Rattle.thermograph.specs.Breaks.{wall_at};
ghost use Rattle.thermograph.specs.inner.Flags.{AreFollowers};
ghost use Rattle.thermograph.specs.Drawings.{DrawWalls, DrawOnGrids, IsTemperature, AreBreaks, end_of};
ghost use Rattle.thermograph.specs.inner.Drawings.{IsDrawing, AreDrawn};
ghost use Rattle.thermograph.specs.PastBounds.{IsDrawnPastBounds};
ghost use Rattle.thermograph.specs.Thermographs.{breaks, IsFromZero};
ghost use Rattle.thermograph.specs.declared.error.ThermoError.TheVariants as the_error;

use crate::breaks::Break;
use crate::drawings::{Drawing, Walls, draw_form};
use crate::error::ThermoError;
use crate::followers::followers;
use crate::wall::{Wall, wall_with};
use dyadic_num::Dyadic;
use game_store::{GameId, Store};
use std::alloc::{AllocError, Global};

/// The thermograph of a game: its walls, its mean, and its temperature, which exactly a number lacks.
#[derive(Drop)]
pub struct Thermograph {
    pub left: Wall,
    pub right: Wall,
    pub mean: Dyadic,
    pub temperature: Option<Dyadic>,
}

impl Walls {
    /// Appends the walls of the next id.
    fn push(&mut self, left: Vec<Break>, right: Vec<Break>) -> Result<(), AllocError>
        ensures left { OnOk result (self.new.left.items ≡ self.old.left.items ++ left ∷ []) }
        ensures right { OnOk result (self.new.right.items ≡ self.old.right.items ++ right ∷ []) }
    {
        self.left.push(left)?;
        self.right.push(right)?;
        Ok(())
    }
}

/// The walls of the flagged ids below `id`.
fn draw_below(
    alloc: Global,
    store: &Store,
    flags: &[bool],
    id: GameId,
) -> Result<Walls, ThermoError>
    requires id { id < length store.now }
    requires flags { AreFollowers store.now id 0 flags.now }
    ensures drawn { IfOk result
        (λ walls. AreDrawn store.now flags.now id walls.left.items walls.right.items) }
    ensures bounds { IfErr result (λ e. e ≡ the_error.Bounds
        → IsDrawnPastBounds (tree_at store.now id)) }
{
    let mut walls = Walls {
        left: Vec::new(alloc),
        right: Vec::new(alloc),
    };
    for place in 0..id {
        if flags[place as usize] {
            let drawing = draw_form(alloc, store, &walls, place)?;
            walls.push(drawing.left, drawing.right)?;
        } else {
            walls.push(Vec::new(alloc), Vec::new(alloc))?;
        }
    }
    Ok(walls)
}

/// The thermograph of a game of the store (Siegel, Combinatorial Game Theory). Both walls of a number are the number at
/// every t. At t the left scaffold of another game is the greatest right wall of a Left option, less t, and the right
/// scaffold the least left wall of a Right option, plus t; the walls follow them up to the least t where they meet, which
/// is the temperature, and above it both stand at the meeting point, which is the mean. A wall's first break point has t
/// 0, its last one stands at the temperature or, for a number, at 0, and one between exactly where the slope changes.
/// `Bounds` exactly where a break point of the game or of one of its parts is past the bounds of a `Dyadic`.
pub fn draw(alloc: Global, store: &Store, id: GameId) -> Result<Thermograph, ThermoError>
    requires { id < length store.now }
    ensures walls { IfOk result (λ g. DrawWalls (tree_at store.now id) (breaks g.left)
        (breaks g.right)) }
    ensures grids { IfOk result (λ g. DrawOnGrids (tree_at store.now id) (breaks g.left)
        (breaks g.right)) }
    ensures temperature { IfOk result (λ g. IsTemperature (tree_at store.now id)
        (wall_at (breaks g.left)) (wall_at (breaks g.right)) g.temperature g.mean) }
    ensures left_breaks { IfOk result (λ g. IsFromZero g.left
        × AreBreaks (breaks g.left) (end_of g.temperature)) }
    ensures right_breaks { IfOk result (λ g. IsFromZero g.right
        × AreBreaks (breaks g.right) (end_of g.temperature)) }
    ensures bounds { IfErr result (λ e. e ≡ the_error.Bounds
        → IsDrawnPastBounds (tree_at store.now id)) }
    ensures within { IfOk result (λ g. IsDrawnPastBounds (tree_at store.now id) → ⊥) }
{
    let _count = store.len();
    let flags = followers(alloc, store, id)?;
    let walls = draw_below(alloc, store, &flags, id)?;
    let drawing = draw_form(alloc, store, &walls, id)?;
    let left = wall_with(alloc, &drawing.left)?;
    let right = wall_with(alloc, &drawing.right)?;
    Ok(Thermograph {
        left,
        right,
        mean: drawing.mean,
        temperature: drawing.temperature,
    })
}
