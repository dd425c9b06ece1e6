//! The walls of a game from those of its options.

ghost use Rattle.std.specs.Prelude.{◌≡◌, ◌<◌, ◌∷◌, [], length, IfOk, IfErr};
ghost use Rattle.short_games.specs.Tree.{tree_at};
ghost use Rattle.short_games.specs.Number.{number_tree};
ghost use Rattle.short_games.specs.WallGrids.{HasTemperatureBetween};
ghost use Rattle.thermograph.specs.inner.Scaffolds.{line, IsKnown, Stays};
ghost use Rattle.thermograph.specs.inner.Drawings.{IsJoined, Jumps, IsDrawing, AreDrawnBelow};
ghost use Rattle.thermograph.specs.declared.error.ThermoError.TheVariants as the_error;
ghost use Rattle.thermograph.specs.declared.side.Side.TheVariants as the_side;

use crate::breaks::Break;
use crate::error::ThermoError;
use crate::meeting::first_meeting;
use crate::scaffold::Scaffold;
use crate::side::Side;
use dyadic_num::{Dyadic, EXPONENT};
use game_store::{Form, GameId, Store};
use std::alloc::{AllocError, Global};

/// The walls of a game by their break points, its mean and its temperature, which a number lacks.
#[derive(Drop)]
pub(crate) struct Drawing {
    pub(crate) left: Vec<Break>,
    pub(crate) right: Vec<Break>,
    pub(crate) mean: Dyadic,
    pub(crate) temperature: Option<Dyadic>,
}

/// The walls of the games with the first ids. Those of an id that is not wanted are empty.
#[derive(Drop)]
pub(crate) struct Walls {
    pub(crate) left: Vec<Vec<Break>>,
    pub(crate) right: Vec<Vec<Break>>,
}

/// The drawing of a game that is no number, from its scaffolds.
fn join(alloc: Global, left: &Scaffold<'_>, right: &Scaffold<'_>) -> Result<Drawing, ThermoError>
    requires left { IsKnown left.now }
    requires right { IsKnown right.now }
    requires left_side { left.now.side ≡ the_side.Left }
    requires right_side { right.now.side ≡ the_side.Right }
    requires stays { Stays (line left.now) (line right.now) }
    ensures drawn { IfOk result (λ g. IsJoined (line left.now) (line right.now) g) }
    ensures bounds { IfErr result (λ e. e ≡ the_error.Bounds
        → Jumps (line left.now) (line right.now)) }
{
    let meeting = first_meeting(left, right);
    let mean = left.at(meeting);
    if mean < right.at(meeting) {
        return Err(ThermoError::Bounds);
    }
    let left = left.trace(alloc, meeting)?;
    let right = right.trace(alloc, meeting)?;
    Ok(Drawing {
        left,
        right,
        mean: Dyadic::from_units(mean),
        temperature: Some(Dyadic::from_units(meeting as i128)),
    })
}

/// The wall of a number.
fn number_wall(alloc: Global, value: i128) -> Result<Vec<Break>, AllocError>
    ensures { IfOk result (λ w. w.items ≡ record { at = 0; value = value } ∷ []) }
{
    let mut wall = Vec::new(alloc);
    wall.push(Break { at: 0, value })?;
    Ok(wall)
}

/// The drawing of a number.
fn draw_number(alloc: Global, x: Dyadic) -> Result<Drawing, AllocError>
    ensures { IfOk result (λ g. IsDrawing (number_tree x) g) }
{
    let left = number_wall(alloc, x.units())?;
    let right = number_wall(alloc, x.units())?;
    Ok(Drawing {
        left,
        right,
        mean: x,
        temperature: None,
    })
}

/// The drawing of a form whose options are drawn.
pub(crate) fn draw_form(
    alloc: Global,
    store: &Store,
    walls: &Walls,
    id: GameId,
) -> Result<Drawing, ThermoError>
    requires id { id < length store.now }
    requires known { AreDrawnBelow store.now id walls.now.left.items walls.now.right.items }
    ensures drawn { IfOk result (λ g. IsDrawing (tree_at store.now id) g) }
    ensures bounds { IfErr result (λ e. e ≡ the_error.Bounds
        → HasTemperatureBetween EXPONENT (tree_at store.now id)) }
{
    let _count = store.len();
    match store.node(id) {
        Form::Number(x) => {
            let drawing = draw_number(alloc, x)?;
            Ok(drawing)
        }
        Form::Options { left, right } => {
            let left = Scaffold {
                side: Side::Left,
                walls: &walls.right,
                ids: left,
            };
            let right = Scaffold {
                side: Side::Right,
                walls: &walls.left,
                ids: right,
            };
            let drawing = join(alloc, &left, &right)?;
            Ok(drawing)
        }
    }
}
