//! The layers of values of a graph in which one colour has a budget of captures that return.

ghost use Rattle.std.specs.Prelude.{ℕ, ◌≡◌, ◌↔◌, ◌+◌, ◌-◌, ◌<◌, ◌≤◌, ◌^◌, ◌⊎◌, List, true, false, length, slice_index_or, [], ◌++◌, IfOk, IfErr, IfSome, IsTrue, OnOk, Contains};
ghost use Rattle.go_grid.specs.Region.{Region};
ghost use Rattle.short_games.specs.Tree.{Tree};
ghost use Rattle.game_store.specs.Meaning.{Extends};
ghost use Rattle.game_canon.specs.Outcomes.{IsCause};
ghost use Rattle.local_value.specs.declared.budgets.BudgetError.TheVariants.{Form};
ghost use Rattle.local_value.specs.BudgetValues.{IsReturnGraphOf, AreWithinLimits, IsPastLimits};
ghost use Rattle.local_value.specs.inner.Layers.{AreMarked, IsLayer, AreLayers, AreValued, IsBudgetLeft, IsLayerBack, IsRoom, IsUnchanged, IsKept, IsMade};
ghost use Rattle.local_value.specs.Remembered.{IsRightAfter};
ghost use Rattle.local_value.specs.inner.Memo.{IsMemoRight, remembered};
ghost use Rattle.local_value.specs.inner.Valuing.{IsNoted, AreWithinAfter, HasEdges, most_units};

use crate::layer_edges::{followed_edges, returning_places};
use crate::memo::Memo;
use crate::short_ids::{ShortId, shortened};
use crate::steady_values::{Layer, append};
use crate::values::value_of;
use game_canon::FormError;
use game_store::{GameId, Store};
use go_grid::Colour;
use local_graph::{Edge, EdgeList, Edges, MOST_POSITIONS, ReturnGraph};
use std::alloc::{AllocError, Global};

/// Why there are no values: one that is needed has no form within the limits, or the region isn't steady at any budget up to
/// the most.
#[derive(Clone, Copy, Debug, PartialEq, Eq)]
pub enum BudgetError {
    Form(FormError),
    Captures,
}

impl From<FormError> for BudgetError {
    ghost from_gives = { λ cause e. e ≡ Form cause };

    fn from(cause: FormError) -> Self {
        BudgetError::Form(cause)
    }
}

/// Whether there is a layer.
fn has_layer(layers: &[Layer]) -> bool
    ensures { IsBudgetLeft result (length layers.now) }
{
    !layers.is_empty()
}

/// Appends the layer that stands so far from the end, if there is one.
fn append_layer(ids: &mut Vec<ShortId>, layers: &[Layer], back: usize) -> Result<(), AllocError>
    requires { 0 < back }
    ensures { OnOk result ((layer : List ℕ) × IsLayerBack layers.now back layer
        × (ids.new.items ≡ ids.old.items ++ layer)) }
{
    if back > layers.len() {
        return Ok(());
    }
    let layer = layers[layers.len() - back].as_slice();
    ids.reserve_exact(layer.len())?;
    ids.extend_from_slice(layer)?;
    Ok(())
}

/// Room for a layer, and behind it the last two, the later one first.
fn room(alloc: Global, count: usize, layers: &[Layer]) -> Result<Vec<ShortId>, AllocError>
    ensures { IfOk result (λ ids. IsRoom count layers.now ids.items) }
{
    let mut ids = vec![in alloc; 0; count]?;
    append_layer(&mut ids, layers, 1)?;
    append_layer(&mut ids, layers, 2)?;
    Ok(ids)
}

/// Whether the id behind an edge is as it was one layer before.
fn is_unchanged(ids: &[ShortId], count: usize, edge: &Edge) -> bool
    requires next { edge.now.next < length ids.now }
    requires few { length ids.now + count < 2 ^ 64 }
    ensures { IsTrue result → IsUnchanged count ids.now edge.now }
{
    ids.get(edge.next + count) == Some(&ids[edge.next])
}

/// Whether the id behind each edge is as it was one layer before.
fn are_unchanged(ids: &[ShortId], count: usize, edges: &Edges<'_>) -> bool
    requires next { (f : Edge) → Contains edges.now f → f.next < length ids.now }
    requires few { length ids.now + count < 2 ^ 64 }
    ensures { IsTrue result → (f : Edge) → Contains edges.now f → IsUnchanged count ids.now f }
{
    'comparing: for number in 0..edges.len() {
        if !is_unchanged(ids, count, &edges.get(number)) {
            return false;
        }
    }
    true
}

/// The id of a place one layer before, where nothing behind its edges changed.
fn kept_id(ids: &[ShortId], count: usize, place: usize, edges: &Edges<'_>) -> Option<GameId>
    requires next { (f : Edge) → Contains edges.now f → f.next < length ids.now }
    requires place { place < length ids.now }
    requires few { length ids.now + count < 2 ^ 64 }
    ensures { IfSome result (λ id. IsKept count ids.now place edges.now id) }
{
    if place + count < ids.len() && are_unchanged(ids, count, edges) {
        return Some(GameId::from(ids[place + count]));
    }
    None
}

/// The id of a place: that of one layer before where nothing behind its edges changed, else that of the value with these edges.
fn id_of(
    alloc: Global,
    store: &mut Store,
    memo: &mut Memo,
    ids: &[ShortId],
    count: usize,
    place: usize,
    edges: &Edges<'_>,
    parts_limit: u32,
) -> Result<GameId, FormError>
    requires noted { (e : Edge) → Contains edges.now e → IsNoted store.old ids.now e.next }
    requires small { AreWithinAfter most_units store.old ids.now edges.now }
    requires place { place < length ids.now }
    requires few { length ids.now + count < 2 ^ 64 }
    requires memo { IsMemoRight store.old parts_limit memo.old }
    ensures id { IfOk result (λ id. IsKept count ids.now place edges.now id
        ⊎ IsMade store.old store.new ids.now parts_limit edges.now id) }
    ensures refusal { IfErr result (λ error. (G : Tree) → HasEdges store.old ids.now edges.now G
        → IsCause G parts_limit error) }
    ensures memo { OnOk result (IsMemoRight store.new parts_limit memo.new) }
    ensures kept { Extends store.old store.new }
{
    if let Some(id) = kept_id(ids, count, place, edges) {
        return Ok(id);
    }
    value_of(alloc, store, memo, ids, edges, parts_limit)
}

/// The values of all positions with a budget, by place, where those with each smaller one are given.
fn layer(
    alloc: Global,
    graph: &ReturnGraph,
    owner: Colour,
    returning: &[bool],
    store: &mut Store,
    memo: &mut Memo,
    layers: &[Layer],
    parts_limit: u32,
) -> Result<Layer, FormError>
    requires graph { (r : Region) × IsReturnGraphOf r graph.now
        × AreLayers r graph.now owner parts_limit store.old layers.now }
    requires returning { AreMarked owner graph.now returning.now }
    requires few { length graph.now.positions ≤ MOST_POSITIONS }
    requires low { length layers.now ≤ 256 }
    requires memo { IsMemoRight store.old parts_limit memo.old }
    ensures layer { IfOk result (λ ids. (r : Region) → IsReturnGraphOf r graph.now
        → AreLayers r graph.now owner parts_limit store.old layers.now
        → IsLayer r graph.now owner parts_limit (length layers.now) store.new ids) }
    ensures limits { IfOk result (λ ids. (r : Region) → IsReturnGraphOf r graph.now
        → AreLayers r graph.now owner parts_limit store.old layers.now
        → AreWithinLimits r graph.now owner parts_limit (length layers.now)) }
    ensures refusal { IfErr result (λ error. (r : Region) → IsReturnGraphOf r graph.now
        → AreLayers r graph.now owner parts_limit store.old layers.now
        → IsPastLimits r graph.now owner parts_limit (length layers.now) error) }
    ensures memo { OnOk result (IsMemoRight store.new parts_limit memo.new) }
    ensures kept { Extends store.old store.new }
{
    let count = graph.graph().len();
    let has_budget = has_layer(layers);
    let mut ids = room(alloc, count, layers)?;
    let mut followed = EdgeList::new(alloc);
    'valuing: for place in graph.order(owner) {
        let place = *place as usize;
        let edges = followed_edges(graph, owner, returning, place, has_budget, &mut followed)?;
        let id = id_of(alloc, store, memo, &ids, count, place, &edges, parts_limit)?;
        let short = shortened(id)?;
        ids[place] = short;
    }
    ids.truncate(count);
    ids.shrink_to_fit();
    let _count = store.len();
    Ok(Layer::from(ids))
}

/// Works out one layer more: the values with a budget more.
fn add_layer(
    alloc: Global,
    graph: &ReturnGraph,
    owner: Colour,
    returning: &[bool],
    store: &mut Store,
    memo: &mut Memo,
    layers: &mut Vec<Layer>,
    parts_limit: u32,
) -> Result<(), FormError>
    requires graph { (r : Region) × IsReturnGraphOf r graph.now
        × AreLayers r graph.now owner parts_limit store.old layers.old.items }
    requires returning { AreMarked owner graph.now returning.now }
    requires few { length graph.now.positions ≤ MOST_POSITIONS }
    requires low { length layers.old.items ≤ 256 }
    requires memo { IsMemoRight store.old parts_limit memo.old }
    ensures layers { OnOk result ((r : Region) → IsReturnGraphOf r graph.now
        → AreLayers r graph.now owner parts_limit store.old layers.old.items
        → AreLayers r graph.now owner parts_limit store.new layers.new.items) }
    ensures many { OnOk result (length layers.new.items ≡ length layers.old.items + 1) }
    ensures limits { OnOk result ((r : Region) → IsReturnGraphOf r graph.now
        → AreLayers r graph.now owner parts_limit store.old layers.old.items
        → AreWithinLimits r graph.now owner parts_limit (length layers.old.items)) }
    ensures refusal { IfErr result (λ error. (r : Region) → IsReturnGraphOf r graph.now
        → AreLayers r graph.now owner parts_limit store.old layers.old.items
        → IsPastLimits r graph.now owner parts_limit (length layers.old.items) error) }
    ensures memo { OnOk result (IsMemoRight store.new parts_limit memo.new) }
    ensures kept { Extends store.old store.new }
{
    let layer = layer(
        alloc,
        graph,
        owner,
        returning,
        store,
        memo,
        layers,
        parts_limit,
    )?;
    append(layers, layer)?;
    Ok(())
}

/// Whether two layers are the same.
fn are_same(ids: &[ShortId], others: &[ShortId]) -> bool
    ensures { (result ≡ true) ↔ (ids.now ≡ others.now) }
{
    ids == others
}

/// Whether the last layer is as the one before it.
fn is_last_repeated(layers: &[Layer]) -> bool
    requires { 2 ≤ length layers.now }
    ensures { (result ≡ true) ↔ (slice_index_or layers.now (length layers.now - 2) []
        ≡ slice_index_or layers.now (length layers.now - 1) []) }
{
    let last = layers.len() - 1;
    are_same(layers[last - 1].as_slice(), layers[last].as_slice())
}

/// Works out the layers up to the first that the next one repeats.
pub(crate) fn add_layers(
    alloc: Global,
    graph: &ReturnGraph,
    owner: Colour,
    store: &mut Store,
    memo: &mut Memo,
    layers: &mut Vec<Layer>,
    most: u8,
    parts_limit: u32,
) -> Result<(), BudgetError>
    requires graph { (r : Region) × IsReturnGraphOf r graph.now }
    requires few { length graph.now.positions ≤ MOST_POSITIONS }
    requires none { layers.old.items ≡ [] }
    requires memo { IsMemoRight store.old parts_limit memo.old }
    ensures valued { (r : Region) → IsReturnGraphOf r graph.now
        → AreValued r graph.now owner most parts_limit store.new layers.new.items result }
    ensures memo { IsRightAfter store.new parts_limit result (remembered memo.new) }
    ensures kept { Extends store.old store.new }
{
    let returning = match returning_places(alloc, graph, owner) {
        Ok(returning) => returning,
        Err(cause) => return Err(BudgetError::Form(FormError::Memory(cause))),
    };
    add_layer(
        alloc,
        graph,
        owner,
        &returning,
        store,
        memo,
        layers,
        parts_limit,
    )?;
    if !graph.has_cycle() {
        return Ok(());
    }
    'layers: for budget in 0..u16::from(most) + 1 {
        add_layer(
            alloc,
            graph,
            owner,
            &returning,
            store,
            memo,
            layers,
            parts_limit,
        )?;
        let _count = store.len();
        if is_last_repeated(layers) {
            layers.truncate(usize::from(budget) + 1);
            return Ok(());
        }
    }
    Err(BudgetError::Captures)
}
