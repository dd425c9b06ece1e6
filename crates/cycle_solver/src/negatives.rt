//! Negatives of values, each of which is made once and noted by the id of the value.

ghost use Rattle.std.specs.Prelude.{◌≡◌, ℕ, ◌<◌, ◌≤◌, OnOk, None, length, slice_index_or};
ghost use Rattle.go_grid.specs.declared.grid.Colour.{Colour};
ghost use Rattle.game_store.specs.Meaning.{AreIds, Extends};
ghost use Rattle.endgame_solver.specs.inner.Sharing.{AreNegatives};
ghost use Rattle.cycle_solver.specs.GameLists.{layers_for};
ghost use Rattle.cycle_solver.specs.Turned.{negative_in};
ghost use Rattle.cycle_solver.specs.inner.Shared.{AreLayersOfIds, AreNoted, AreNotedIn, HasRoom, HaveRoom, IsNoted, KeepsNotes};

use crate::region_game::RegionGame;
use game_canon::negate;
use game_store::{GameId, Store};
use local_value::{ShortId, SteadyValues};
use std::alloc::{AllocError, Global};

/// The noted negative of an id, or 0 where none is.
pub(crate) fn negative_in(known: &[Option<GameId>], id: GameId) -> GameId
    ensures { result ≡ negative_in known.now id }
{
    match known.get(id as usize) {
        Some(Some(negative)) => *negative,
        _ => 0,
    }
}

/// Notes the negative of a value.
fn note(
    alloc: Global,
    id: GameId,
    known: &mut [Option<GameId>],
    store: &mut Store,
) -> Result<(), AllocError>
    requires id { id < length store.old }
    requires place { id < length known.old }
    requires right { AreNegatives store.old known.old }
    ensures noted { OnOk result (IsNoted known.new id) }
    ensures keeps { OnOk result (KeepsNotes known.old known.new) }
    ensures right { OnOk result (AreNegatives store.new known.new) }
    ensures long { length known.new ≡ length known.old }
    ensures kept { Extends store.old store.new }
{
    let _count = store.len();
    if let Some(_negative) = known[id as usize] {
        return Ok(());
    }
    let negative = negate(alloc, store, id)?;
    known[id as usize] = Some(negative);
    Ok(())
}

/// Notes the negatives of values.
fn note_layer(
    alloc: Global,
    ids: &[ShortId],
    known: &mut [Option<GameId>],
    store: &mut Store,
) -> Result<(), AllocError>
    requires ids { AreIds store.old ids.now }
    requires room { HasRoom known.old ids.now }
    requires right { AreNegatives store.old known.old }
    ensures noted { OnOk result (AreNotedIn known.new ids.now) }
    ensures keeps { OnOk result (KeepsNotes known.old known.new) }
    ensures right { OnOk result (AreNegatives store.new known.new) }
    ensures long { length known.new ≡ length known.old }
    ensures kept { Extends store.old store.new }
{
    'ids: for id in ids {
        note(alloc, GameId::from(*id), known, store)?;
    }
    Ok(())
}

/// Notes the negatives of the values with each budget.
fn note_values(
    alloc: Global,
    values: &SteadyValues,
    known: &mut [Option<GameId>],
    store: &mut Store,
) -> Result<(), AllocError>
    requires ids { AreLayersOfIds store.old values.now }
    requires room { HaveRoom known.old values.now }
    requires right { AreNegatives store.old known.old }
    ensures noted { OnOk result (AreNoted known.new values.now) }
    ensures keeps { OnOk result (KeepsNotes known.old known.new) }
    ensures right { OnOk result (AreNegatives store.new known.new) }
    ensures long { length known.new ≡ length known.old }
    ensures kept { Extends store.old store.new }
{
    'budgets: for budget in 0..values.budget() {
        note_layer(alloc, values.with(budget).as_slice(), known, store)?;
    }
    note_layer(alloc, values.values().as_slice(), known, store)?;
    Ok(())
}

/// Notes the negatives of both players' values.
fn note_both(
    alloc: Global,
    game: &RegionGame,
    known: &mut [Option<GameId>],
    store: &mut Store,
) -> Result<(), AllocError>
    requires ids { (c : Colour) → AreLayersOfIds store.old (layers_for game.now c) }
    requires room { (c : Colour) → HaveRoom known.old (layers_for game.now c) }
    requires right { AreNegatives store.old known.old }
    ensures noted { OnOk result ((c : Colour) → AreNoted known.new (layers_for game.now c)) }
    ensures keeps { OnOk result (KeepsNotes known.old known.new) }
    ensures right { OnOk result (AreNegatives store.new known.new) }
    ensures long { length known.new ≡ length known.old }
    ensures kept { Extends store.old store.new }
{
    note_values(alloc, &game.black, known, store)?;
    match &game.white {
        None => Ok(()),
        Some(white) => {
            note_values(alloc, white, known, store)?;
            Ok(())
        }
    }
}

/// Makes room for what is noted of so many ids.
fn make_room(known: &mut Vec<Option<GameId>>, count: usize) -> Result<(), AllocError>
    ensures room { OnOk result (count ≤ length known.new.items) }
    ensures same { OnOk result ((i : ℕ) → slice_index_or known.new.items i None
        ≡ slice_index_or known.old.items i None) }
{
    if known.len() < count {
        known.resize(count, None)?;
    }
    Ok(())
}

/// Notes the negatives of the values of a game.
pub(crate) fn note_game(
    alloc: Global,
    game: &RegionGame,
    known: &mut Vec<Option<GameId>>,
    store: &mut Store,
) -> Result<(), AllocError>
    requires ids { (c : Colour) → AreLayersOfIds store.old (layers_for game.now c) }
    requires right { AreNegatives store.old known.old.items }
    ensures noted { OnOk result ((c : Colour) → AreNoted known.new.items (layers_for game.now c)) }
    ensures keeps { OnOk result (KeepsNotes known.old.items known.new.items) }
    ensures right { OnOk result (AreNegatives store.new known.new.items) }
    ensures kept { Extends store.old store.new }
{
    make_room(known, store.len() as usize)?;
    note_both(alloc, game, known, store)?;
    Ok(())
}
