//! What is shown of a game.

ghost use Rattle.std.specs.Prelude.{◌≡◌, ◌<◌, ◌≤◌, ◌++◌, codes, length, IfOk, IfErr, OnOk, string_bytes};
ghost use Rattle.short_games.specs.Tree.{tree_at};
ghost use Rattle.game_text.specs.NamedText.{named_depth, named_text};
ghost use Rattle.thermograph.specs.PastBounds.{IsDrawnPastBounds};
ghost use Rattle.game_lines.specs.Pictures.{IsThermograph, picture_lines};
ghost use Rattle.game_lines.specs.Showings.{IsShowRefusal, IsShowing, IsUnshown, game_lines, labelled_lines, picture};
ghost use Rattle.game_lines.specs.declared.showing.ShowError.TheVariants as the_error;
ghost use Rattle.game_lines.specs.declared.showing.ShowError.TheVariants.{Form, Memory};

use crate::picture::write_picture;
use dyadic_num::Dyadic;
use game_stops::{left_stop, right_stop};
use game_store::{GameId, Store};
use game_text::{Text, WriteError, write};
use std::alloc::{AllocError, Global};
use thermograph::{ThermoError, Thermograph, draw};
use thiserror::Error;

/// Why a game isn't shown: its named text has more than 65,536 bytes or braces that nest more than 1,000 deep, or a
/// break point of it is past the bounds of a `Dyadic`; or memory is wanting.
#[derive(Clone, Copy, Debug, PartialEq, Eq, Error)]
pub enum ShowError {
    #[error("a game that isn't shown")]
    Form,
    #[error("out of memory")]
    Memory(AllocError),
}

impl From<AllocError> for ShowError {
    ghost from_gives = { λ cause e. e ≡ the_error.Memory cause };

    fn from(cause: AllocError) -> Self {
        ShowError::Memory(cause)
    }
}

/// What is shown of a game: its named text, its stops and its thermograph.
#[derive(Drop)]
pub struct Showing {
    text: Text,
    left_stop: Dyadic,
    right_stop: Dyadic,
    thermograph: Thermograph,
}

/// The named text of a game.
fn shown_text(alloc: Global, store: &Store, id: GameId) -> Result<Text, ShowError>
    requires { id < length store.now }
    ensures text { IfOk result (λ t. t ≡ named_text (tree_at store.now id)) }
    ensures within { IfOk result (λ t. (length t ≤ 65536)
        × (named_depth (tree_at store.now id) ≤ 1000)) }
    ensures refusal { IfErr result (IsShowRefusal (tree_at store.now id)) }
{
    match write(alloc, store, id, 65_536) {
        Ok(text) => Ok(text),
        Err(WriteError::Long) => Err(ShowError::Form),
        Err(WriteError::Deep) => Err(ShowError::Form),
        Err(WriteError::Memory(cause)) => Err(ShowError::Memory(cause)),
    }
}

/// The thermograph of a game.
fn shown_thermograph(alloc: Global, store: &Store, id: GameId) -> Result<Thermograph, ShowError>
    requires { id < length store.now }
    ensures drawn { IfOk result (IsThermograph (tree_at store.now id)) }
    ensures within { IfOk result (λ _. IsDrawnPastBounds (tree_at store.now id) → ⊥) }
    ensures refusal { IfErr result (IsShowRefusal (tree_at store.now id)) }
{
    match draw(alloc, store, id) {
        Ok(drawn) => Ok(drawn),
        Err(ThermoError::Bounds) => Err(ShowError::Form),
        Err(ThermoError::Memory(cause)) => Err(ShowError::Memory(cause)),
    }
}

/// What is shown of a game. `Form` exactly where its named text has more than 65,536 bytes or braces that nest more than
/// 1,000 deep, or a break point of it or of one of its parts is past the bounds of a `Dyadic`.
pub fn show(alloc: Global, store: &Store, id: GameId) -> Result<Showing, ShowError>
    requires { id < length store.now }
    ensures shown { IfOk result (IsShowing (tree_at store.now id)) }
    ensures refusal { IfErr result (IsShowRefusal (tree_at store.now id)) }
{
    let text = shown_text(alloc, store, id)?;
    let thermograph = shown_thermograph(alloc, store, id)?;
    Ok(Showing {
        text,
        left_stop: left_stop(store, id),
        right_stop: right_stop(store, id),
        thermograph,
    })
}

/// The lines behind the text of a game.
fn picture_text(alloc: Global, showing: &Showing) -> Result<String, AllocError>
    ensures { IfOk result (λ t. string_bytes t ≡ codes "\n" ++ picture_lines
        (picture showing.now)) }
{
    let mut lines = String::new(alloc);
    lines.push_str("\n")?;
    write_picture(
        alloc,
        &mut lines,
        (showing.left_stop, showing.right_stop),
        &showing.thermograph,
    )?;
    Ok(lines)
}

/// Appends the lines that show a game, with this label in the place of `value`.
pub fn write_labelled(
    alloc: Global,
    text: &mut Text,
    label: &str,
    showing: &Showing,
) -> Result<(), AllocError>
    ensures { OnOk result (text.new ≡ text.old ++ labelled_lines label.now showing.now.text
        (picture showing.now)) }
{
    text.extend_from_slice(label.as_bytes())?;
    text.extend_from_slice(b" ")?;
    text.extend_from_slice(showing.text.as_slice())?;
    let picture = picture_text(alloc, showing)?;
    text.extend_from_slice(picture.as_bytes())?;
    Ok(())
}

/// Appends the lines that show a game: `value`, `stops`, `mean`, `temperature`, `left` and `right`.
pub fn write_showing(alloc: Global, text: &mut Text, showing: &Showing) -> Result<(), AllocError>
    ensures { OnOk result (text.new ≡ text.old ++ game_lines showing.now.text
        (picture showing.now)) }
{
    write_labelled(alloc, text, "value", showing)
}
