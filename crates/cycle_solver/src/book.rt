//! The games of regions, one for each shape, and where each region finds its own.

ghost use Rattle.std.specs.Prelude.{◌≡◌, ℕ, ◌<◌, ◌≤◌, ◌++◌, ◌∷◌, [], IsTrue, OnOk, Contains, length, slice_index};
ghost use Rattle.go_grid.specs.declared.grid.Colour.{Colour};
ghost use Rattle.game_store.specs.Forms.{HaveForms};
ghost use Rattle.game_store.specs.Meaning.{Extends};
ghost use Rattle.cycle_solver.specs.declared.views.View.{View};
ghost use Rattle.cycle_solver.specs.GameLists.{game_at, layers_for};
ghost use Rattle.cycle_solver.specs.inner.Shared.{AreLayersOfIds, AreNoted, AreNotedBy, IsViewFor, KeepsNotes};

use crate::negatives::note_game;
use crate::region_game::RegionGame;
use crate::shapes::{differ, pairing};
use crate::views::View;
use game_store::{GameId, Store};
use go_grid::Region;
use region_book::Turn;
use std::alloc::{AllocError, Global};

/// The different games, which of them serves each region, and the negatives that are noted of the values of those whose
/// colours are exchanged for some region.
#[derive(Drop)]
pub(crate) struct Book {
    pub games: Vec<RegionGame>,
    pub views: Vec<View>,
    /// By id, that of the negative.
    pub negatives: Vec<Option<GameId>>,
}

/// Whether a view shows the game at the place with colours exchanged.
fn is_exchange_of(view: &View, place: usize) -> bool
    ensures { IsTrue result → (view.now.game ≡ place) × IsTrue view.now.colours }
{
    view.game == place && view.colours
}

/// Whether the game at the place is shown to some region with colours exchanged.
fn is_exchanged(views: &[View], place: usize) -> bool
    ensures { IsTrue result → (v : View) × Contains views.now v × (v.game ≡ place)
        × IsTrue v.colours }
{
    'views: for view in views {
        if is_exchange_of(view, place) {
            return true;
        }
    }
    false
}

/// Sees to it that the negatives of the values of the game at the place are noted, if colours are exchanged.
fn note_exchanged(
    alloc: Global,
    colours: bool,
    place: usize,
    book: &mut Book,
    store: &mut Store,
) -> Result<(), AllocError>
    requires known { place < length book.old.games.items }
    requires ids { (c : Colour) → AreLayersOfIds store.old
        (layers_for (game_at book.old.games.items place) c) }
    requires right { AreNotedBy book.old store.old }
    ensures noted { OnOk result (IsTrue colours → (c : Colour) → AreNoted book.new.negatives.items
        (layers_for (game_at book.old.games.items place) c)) }
    ensures keeps { OnOk result
        (KeepsNotes book.old.negatives.items book.new.negatives.items) }
    ensures right { OnOk result (AreNotedBy book.new store.new) }
    ensures games { book.new.games ≡ book.old.games }
    ensures views { book.new.views ≡ book.old.views }
    ensures kept { Extends store.old store.new }
{
    let _count = store.len();
    if !colours {
        return Ok(());
    }
    if is_exchanged(&book.views, place) {
        return Ok(());
    }
    note_game(alloc, &book.games[place], &mut book.negatives, store)?;
    Ok(())
}

/// Adds how a region sees the game at a place, which is that of the first region of its shape.
pub(crate) fn add_view(
    alloc: Global,
    region: &Region,
    turn: &Turn,
    place: usize,
    first: &Turn,
    book: &mut Book,
    store: &mut Store,
) -> Result<(), AllocError>
    requires few { length region.now.points ≤ 32 }
    requires known { place < length book.old.games.items }
    requires ids { (c : Colour) → AreLayersOfIds store.old
        (layers_for (game_at book.old.games.items place) c) }
    requires some { (j : ℕ) → j < length region.now.points
        → (i : ℕ) × (i < length region.now.points)
        × (slice_index turn.now.places i ≡ slice_index first.now.places j) }
    requires right { AreNotedBy book.old store.old }
    ensures view { OnOk result ((v : View)
        × (book.new.views.items ≡ book.old.views.items ++ v ∷ [])
        × IsViewFor (length region.now.points) turn.now first.now place v
        × (IsTrue v.colours → (c : Colour) → AreNoted book.new.negatives.items
        (layers_for (game_at book.old.games.items place) c))) }
    ensures keeps { OnOk result
        (KeepsNotes book.old.negatives.items book.new.negatives.items) }
    ensures right { OnOk result (AreNotedBy book.new store.new) }
    ensures games { OnOk result (book.new.games.items ≡ book.old.games.items) }
    ensures kept { Extends store.old store.new }
    ensures forms { OnOk result (HaveForms store.new) }
{
    let colours = differ(first.colours, turn.colours);
    note_exchanged(alloc, colours, place, book, store)?;
    let places = pairing(region.points.len(), turn, first);
    let _count = store.len();
    book.views.push(View {
        game: place,
        places,
        colours,
    })?;
    Ok(())
}
