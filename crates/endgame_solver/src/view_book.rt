//! Regions of one shape: what was found of the first of them serves the others.

ghost use Rattle.std.specs.Prelude.{◌≡◌, ◌≢◌, ℕ, ◌+◌, ◌^◌, ◌<◌, ◌≤◌, ◌++◌, ◌∷◌, [], ◌↔◌, IfErr, IfOk, IsTrue, List, MatchOption, OnOk, Contains, length, min, replicate, slice_index, slice_index_or, false, true};
ghost use Rattle.game_store.specs.Forms.{HaveForms};
ghost use Rattle.game_store.specs.Meaning.{AreIds, Extends};
ghost use Rattle.region_book.specs.Law.{differ};
ghost use Rattle.endgame_solver.specs.declared.view_book.Kind.{Kind};
ghost use Rattle.endgame_solver.specs.inner.Held.{ids_at};
ghost use Rattle.endgame_solver.specs.inner.Sharing.{AreNegatives, AreTurnedValues, IsTurnedValue, IsViewFor, PairsWith};
ghost use Rattle.endgame_solver.specs.inner.Views.{IsOwnView};
ghost use Rattle.endgame_solver.specs.declared.views.View.{View};
ghost use Rattle.region_book.specs.Image.{IsShape};

use crate::views::View;
use game_canon::negate;
use game_store::{GameId, Store};
use go_grid::Region;
use local_graph::CompactGraph;
use local_play::start;
use local_value::Values;
use region_book::{Shape, Turn, shape};
use std::alloc::{AllocError, Global};

/// A shape, how the opening of the first region that has it is turned into it, and where that region's values stand. Its graph
/// stands at the place of the kind.
#[derive(Drop)]
pub(crate) struct Kind {
    pub shape: Shape,
    pub turn: Turn,
    pub values: usize,
}

/// The graphs and values of the regions, one graph for each shape, and where each region finds its own.
#[derive(Drop)]
pub(crate) struct Book {
    pub graphs: Vec<CompactGraph>,
    pub values: Vec<Values>,
    pub views: Vec<View>,
}

/// Whether the two are the same.
fn is_same(a: &Shape, b: &Shape) -> bool
    ensures { IsTrue result ↔ (a.now.spots.items ≡ b.now.spots.items) }
{
    a == b
}

/// The kind of a region that is the first of its shape, whose values are to stand at the place.
pub(crate) fn first_kind(alloc: Global, region: &Region, values: usize) -> Result<Kind, AllocError>
    requires { length region.now.points ≤ 32 }
    ensures shape { IfOk result (λ kind. IsShape region.now region.now.cells
        kind.shape.spots.items kind.turn) }
    ensures values { IfOk result (λ kind. kind.values ≡ values) }
{
    let (image, turn) = shape(alloc, region, start(region))?;
    Ok(Kind {
        shape: image,
        turn,
        values,
    })
}

/// The kind that has the shape.
pub(crate) fn kind_of(kinds: &[Kind], shape: &Shape) -> Option<usize>
    ensures { MatchOption result ((kind : Kind) → Contains kinds.now kind
        → kind.shape.spots.items ≢ shape.now.spots.items)
        (λ j. (j < length kinds.now) × ((kind : Kind) → slice_index_or kinds.now j kind ≡ kind
        → kind.shape.spots.items ≡ shape.now.spots.items)) }
{
    'kinds: for place in 0..kinds.len() {
        if is_same(&kinds[place].shape, shape) {
            return Some(place);
        }
    }
    None
}

/// Whether exactly one of the two is true.
fn differ(a: bool, b: bool) -> bool
    ensures { result ≡ differ a b }
{
    if a { !b } else { b }
}

/// The place that the turn brings to a place of the shape.
fn place_before(count: usize, turn: &Turn, place: u8) -> u8
    requires few { count ≤ 32 }
    requires some { (i : ℕ) × (i < count) × (slice_index turn.now.places i ≡ place) }
    ensures { (result < count) × (slice_index turn.now.places result ≡ place) }
{
    'places: for candidate in 0..count {
        if turn.places[candidate] == place {
            return candidate as u8;
        }
    }
    0
}

/// Place 0 for each place.
fn no_places() -> [u8; 32]
    ensures { result ≡ replicate 32 0 }
{
    [0; 32]
}

/// Each place for itself.
fn own_places() -> [u8; 32]
    ensures { (i : ℕ) → i < 32 → slice_index result i ≡ i }
{
    let mut places = no_places();
    'places: for place in 0..32usize {
        places[place] = place as u8;
    }
    places
}

/// For each place of the first region that has a shape, the place of another that goes where it goes.
fn pairing(count: usize, turn: &Turn, first: &Turn) -> [u8; 32]
    requires few { count ≤ 32 }
    requires some { (j : ℕ) → j < count → (i : ℕ) × (i < count)
        × (slice_index turn.now.places i ≡ slice_index first.now.places j) }
    ensures { PairsWith count turn.now first.now result }
{
    let mut places = no_places();
    'places: for place in 0..count {
        places[place] = place_before(count, turn, first.places[place]);
    }
    places
}

/// The negative of a value, which is noted.
fn negative_of(
    alloc: Global,
    store: &mut Store,
    known: &mut [Option<GameId>],
    id: GameId,
) -> Result<GameId, AllocError>
    requires id { id < length store.old }
    requires place { id < length known.old }
    requires right { AreNegatives store.old known.old }
    ensures value { IfOk result (λ turned. IsTurnedValue true store.new id turned) }
    ensures right { OnOk result (AreNegatives store.new known.new) }
    ensures long { length known.new ≡ length known.old }
    ensures kept { Extends store.old store.new }
{
    if let Some(negative) = known[id as usize] {
        return Ok(negative);
    }
    let negative = negate(alloc, store, id)?;
    known[id as usize] = Some(negative);
    Ok(negative)
}

/// The negatives of values.
fn negatives(alloc: Global, ids: &[GameId], store: &mut Store) -> Result<Values, AllocError>
    requires { AreIds store.old ids.now }
    ensures turned { IfOk result (λ turned. AreTurnedValues true store.new ids.now turned) }
    ensures kept { Extends store.old store.new }
{
    let mut known = vec![in alloc; None; store.len() as usize]?;
    let mut turned = Values::new(alloc);
    'ids: for id in ids {
        turned.push(negative_of(alloc, store, &mut known, *id)?)?;
    }
    Ok(turned)
}

/// Where the values stand, or their negatives, which are added, where colours are exchanged.
fn values_for(
    alloc: Global,
    exchanged: bool,
    place: usize,
    values: &mut Vec<Values>,
    store: &mut Store,
) -> Result<usize, AllocError>
    requires known { place < length values.old.items }
    requires ids { AreIds store.old (ids_at values.old.items place) }
    ensures known { IfOk result (λ k. k < length values.new.items) }
    ensures turned { IfOk result (λ k. AreTurnedValues exchanged store.new
        (ids_at values.old.items place) (ids_at values.new.items k)) }
    ensures more { OnOk result ((more : List (List ℕ))
        × (values.new.items ≡ values.old.items ++ more)) }
    ensures kept { Extends store.old store.new }
{
    let _count = store.len();
    if exchanged {
        let turned = negatives(alloc, values[place].as_slice(), store)?;
        let after = values.len();
        values.push(turned)?;
        return Ok(after);
    }
    Ok(place)
}

/// Adds how a region sees the graph at a place and the values of its kind.
pub(crate) fn add_view(
    alloc: Global,
    region: &Region,
    turn: &Turn,
    place: usize,
    kind: &Kind,
    book: &mut Book,
    store: &mut Store,
) -> Result<(), AllocError>
    requires few { length region.now.points ≤ 32 }
    requires known { kind.now.values < length book.old.values.items }
    requires ids { AreIds store.old (ids_at book.old.values.items kind.now.values) }
    requires some { (j : ℕ) → j < length region.now.points
        → (i : ℕ) × (i < length region.now.points)
        × (slice_index turn.now.places i ≡ slice_index kind.now.turn.places j) }
    ensures view { OnOk result ((v : View)
        × (book.new.views.items ≡ book.old.views.items ++ v ∷ []) × IsViewFor
        (length region.now.points) place turn.now kind.now book.old.values.items
        book.new.values.items store.new v) }
    ensures more { OnOk result ((more : List (List ℕ))
        × (book.new.values.items ≡ book.old.values.items ++ more)) }
    ensures graphs { OnOk result (book.new.graphs.items ≡ book.old.graphs.items) }
    ensures kept { Extends store.old store.new }
    ensures forms { OnOk result (HaveForms store.new) }
{
    let places = pairing(region.points.len(), turn, &kind.turn);
    let colours = differ(kind.turn.colours, turn.colours);
    let values = values_for(alloc, colours, kind.values, &mut book.values, store)?;
    let _count = store.len();
    book.views.push(View {
        graph: place,
        values,
        places,
        colours,
    })?;
    Ok(())
}

/// How a region sees its own graph and values.
fn own_view(graph: usize, values: usize) -> View
    ensures { IsOwnView result graph values }
{
    View {
        graph,
        values,
        places: own_places(),
        colours: false,
    }
}

/// Adds the graph and the values of a region, and how it sees them.
pub(crate) fn add_own(
    book: &mut Book,
    graph: CompactGraph,
    values: Values,
) -> Result<(), AllocError>
    ensures graphs { OnOk result (book.new.graphs.items ≡ book.old.graphs.items ++ graph ∷ []) }
    ensures values { OnOk result (book.new.values.items ≡ book.old.values.items ++ values ∷ []) }
    ensures view { OnOk result ((v : View)
        × (book.new.views.items ≡ book.old.views.items ++ v ∷ [])
        × IsOwnView v (length book.old.graphs.items) (length book.old.values.items)) }
{
    book.views
        .push(own_view(book.graphs.len(), book.values.len()))?;
    book.graphs.push(graph)?;
    book.values.push(values)?;
    Ok(())
}
