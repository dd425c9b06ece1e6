//! The values of all positions of a graph.

ghost use Rattle.std.specs.Prelude.{ℕ, ◌≡◌, ◌↔◌, ◌<◌, ◌≤◌, ◌+◌, ◌-◌, ◌*◌, ◌^◌, List, length, slice_index, IfOk, IfErr, OnOk, Contains, true};
ghost use Rattle.go_grid.specs.Region.{Region};
ghost use Rattle.go_grid.specs.declared.grid.Colour.TheVariants.{Black, White};
ghost use Rattle.short_games.specs.Tree.{Tree, tree_at};
ghost use Rattle.game_store.specs.Meaning.{Extends};
ghost use Rattle.short_games.specs.Parts.{HasMoreParts};
ghost use Rattle.game_canon.specs.Changes.{HasNumberPastBounds};
ghost use Rattle.game_canon.specs.Outcomes.{IsCanonicalId, IsCause, AreWithin};
ghost use Rattle.local_value.specs.Remembered.{options_of, AreStonesSumsRight};
ghost use Rattle.local_value.specs.inner.Memo.{IsMemoRight};
ghost use Rattle.local_value.specs.Refusals.{IsValueRefusal};
ghost use Rattle.local_trees.specs.GraphPlaces.{IsGraphOf};
ghost use Rattle.local_value.specs.Values.{AreValues};
ghost use Rattle.local_value.specs.inner.Valuing.{IsNoted, IsWithinAfter, AreWithinAfter, IsAfter, AreBothAfter, HasEdges, most_units};

use crate::memo::{Memo, form_of, with_stones};
use crate::option_set::OptionSet;
use crate::options::number_of;
use crate::short_ids::{ShortId, lengthened, shortened};
use crate::sum_table::SumTable;
use dyadic_num::EXPONENT;
use game_canon::FormError;
use game_players::credit;
use game_store::{GameId, Store};
use go_grid::Colour;
use item_list::ItemList;
use local_graph::{CompactGraph, Edge, Edges, Graph, MOST_POSITIONS};
use std::alloc::{AllocError, Global};

/// Ids of a store, one for each position of a graph, by its place.
pub type Values = ItemList<GameId>;

/// The value after an edge: that of the position that it leads to, with the stones that it takes.
#[inline(always)]
fn value_after(
    alloc: Global,
    store: &mut Store,
    sums: &mut SumTable,
    ids: &[ShortId],
    edge: &Edge,
) -> Result<GameId, AllocError>
    requires noted { IsNoted store.old ids.now edge.now.next }
    requires small { IsWithinAfter most_units store.old ids.now edge.now }
    requires sums { AreStonesSumsRight store.old sums.old }
    ensures value { IfOk result (λ id. IsAfter store.old store.new ids.now edge.now id) }
    ensures sums { OnOk result (AreStonesSumsRight store.new sums.new) }
    ensures kept { Extends store.old store.new }
{
    let _count = store.len();
    let before = GameId::from(ids[edge.next]);
    if edge.taken == 0 {
        return Ok(before);
    }
    let taken = credit(edge.colour, edge.taken);
    match with_stones(alloc, store, sums, before, taken) {
        Ok(id) => Ok(id),
        Err(FormError::Memory(cause)) => Err(cause),
        // A sum with a whole number of stones has no more parts, and its numbers stay within the bounds.
        Err(FormError::Parts) => unreachable!(),
        Err(FormError::Bounds) => unreachable!(),
    }
}

/// Puts the values after the edges into `options`, in place of what was there.
#[inline(always)]
fn list_options(
    alloc: Global,
    store: &mut Store,
    sums: &mut SumTable,
    ids: &[ShortId],
    edges: &Edges<'_>,
    options: &mut OptionSet,
) -> Result<(), AllocError>
    requires noted { (e : Edge) → Contains edges.now e → IsNoted store.old ids.now e.next }
    requires small { AreWithinAfter most_units store.old ids.now edges.now }
    requires sums { AreStonesSumsRight store.old sums.old }
    ensures options { OnOk result
        (AreBothAfter store.old store.new ids.now edges.now (options_of Black options.new)
        (options_of White options.new)) }
    ensures sums { OnOk result (AreStonesSumsRight store.new sums.new) }
    ensures kept { Extends store.old store.new }
{
    options.clear();
    'listing: for number in 0..edges.len() {
        let edge = edges.get(number);
        let after = value_after(alloc, store, sums, ids, &edge)?;
        let option = number_of(edge.colour, after)?;
        options.add(option)?;
    }
    Ok(())
}

/// The value of a position with these edges.
pub(crate) fn value_of(
    alloc: Global,
    store: &mut Store,
    memo: &mut Memo,
    ids: &[ShortId],
    edges: &Edges<'_>,
    parts_limit: u32,
) -> Result<GameId, FormError>
    requires noted { (e : Edge) → Contains edges.now e → IsNoted store.old ids.now e.next }
    requires small { AreWithinAfter most_units store.old ids.now edges.now }
    requires memo { IsMemoRight store.old parts_limit memo.old }
    ensures value { IfOk result (λ id. (G : Tree) → HasEdges store.old ids.now edges.now G
        → IsCanonicalId store.new G id) }
    ensures parts { IfOk result (λ id. HasMoreParts (tree_at store.new id) parts_limit → ⊥) }
    ensures sizes { IfOk result (λ id. (b : ℕ) → AreWithinAfter b store.old ids.now edges.now
        → AreWithin (b + 2 ^ EXPONENT) (tree_at store.new id)) }
    ensures refusal { IfErr result (λ error. (G : Tree) → HasEdges store.old ids.now edges.now G
        → IsCause G parts_limit error) }
    ensures memo { OnOk result (IsMemoRight store.new parts_limit memo.new) }
    ensures kept { Extends store.old store.new }
{
    list_options(alloc, store, &mut memo.sums, ids, edges, &mut memo.options)?;
    form_of(alloc, store, &mut memo.forms, &memo.options, parts_limit)
}

/// Puts the value of each position of a graph into its place.
fn value_places(
    alloc: Global,
    graph: &CompactGraph,
    store: &mut Store,
    memo: &mut Memo,
    ids: &mut Vec<ShortId>,
    parts_limit: u32,
) -> Result<(), FormError>
    requires graph { (r : Region) × IsGraphOf r graph.now }
    requires few { length graph.now.positions ≤ MOST_POSITIONS }
    requires places { length ids.old.items ≡ length graph.now.positions }
    requires memo { IsMemoRight store.old parts_limit memo.old }
    ensures values { OnOk result ((r : Region) → IsGraphOf r graph.now
        → AreValues r graph.now store.new ids.new.items) }
    ensures sizes { OnOk result ((r : Region) → IsGraphOf r graph.now → (i : ℕ)
        → i < length ids.new.items
        → AreWithin ((length graph.now.positions * length r.cells) * 2 ^ EXPONENT)
        (tree_at store.new (slice_index ids.new.items i))) }
    ensures parts { OnOk result ((i : ℕ) → i < length ids.new.items
        → HasMoreParts (tree_at store.new (slice_index ids.new.items i)) parts_limit → ⊥) }
    ensures bounds { OnOk result ((i : ℕ) → i < length ids.new.items
        → HasNumberPastBounds (tree_at store.new (slice_index ids.new.items i)) → ⊥) }
    ensures refusal { IfErr result (λ error. (r : Region) → IsGraphOf r graph.now
        → IsValueRefusal r graph.now parts_limit error) }
    ensures kept { Extends store.old store.new }
{
    'valuing: for place in graph.order() {
        let place = *place as usize;
        let edges = graph.edges(place);
        let id = value_of(alloc, store, memo, ids, &edges, parts_limit)?;
        let short = shortened(id)?;
        ids[place] = short;
    }
    let _count = store.len();
    Ok(())
}

/// The values of all positions of a graph, as ids by place: the canonical forms of their trees, to each option of which the
/// stones that its move takes are added for the player who takes them. `Parts` where a value is no number and has more
/// than `parts_limit` parts, and `Bounds` where a number of a value is past the bounds of a `Dyadic`. Every id of the store
/// keeps its form, whatever the answer.
pub fn value_compact(
    alloc: Global,
    graph: &CompactGraph,
    store: &mut Store,
    parts_limit: u32,
) -> Result<Values, FormError>
    requires graph { (r : Region) × IsGraphOf r graph.now }
    requires few { length graph.now.positions ≤ MOST_POSITIONS }
    ensures values { IfOk result (λ values. (r : Region) → IsGraphOf r graph.now
        → AreValues r graph.now store.new values) }
    ensures sizes { IfOk result (λ values. (r : Region) → IsGraphOf r graph.now → (i : ℕ)
        → i < length values
        → AreWithin ((length graph.now.positions * length r.cells) * 2 ^ EXPONENT)
        (tree_at store.new (slice_index values i))) }
    ensures parts { IfOk result (λ values. (i : ℕ) → i < length values
        → HasMoreParts (tree_at store.new (slice_index values i)) parts_limit → ⊥) }
    ensures bounds { IfOk result (λ values. (i : ℕ) → i < length values
        → HasNumberPastBounds (tree_at store.new (slice_index values i)) → ⊥) }
    ensures refusal { IfErr result (λ error. (r : Region) → IsGraphOf r graph.now
        → IsValueRefusal r graph.now parts_limit error) }
    ensures kept { Extends store.old store.new }
{
    let mut ids = vec![in alloc; 0; graph.len()]?;
    let mut memo = Memo::new(alloc);
    let valued = value_places(alloc, graph, store, &mut memo, &mut ids, parts_limit);
    drop(memo);
    valued?;
    let long = lengthened(alloc, &ids)?;
    Ok(Values::from(long))
}

/// The values of all positions of a graph, as `value_compact` gives them.
pub fn value_all(
    alloc: Global,
    graph: &Graph,
    store: &mut Store,
    parts_limit: u32,
) -> Result<Values, FormError>
    requires graph { (r : Region) × IsGraphOf r graph.now }
    requires few { length graph.now.positions ≤ MOST_POSITIONS }
    ensures values { IfOk result (λ values. (r : Region) → IsGraphOf r graph.now
        → AreValues r graph.now store.new values) }
    ensures sizes { IfOk result (λ values. (r : Region) → IsGraphOf r graph.now → (i : ℕ)
        → i < length values
        → AreWithin ((length graph.now.positions * length r.cells) * 2 ^ EXPONENT)
        (tree_at store.new (slice_index values i))) }
    ensures parts { IfOk result (λ values. (i : ℕ) → i < length values
        → HasMoreParts (tree_at store.new (slice_index values i)) parts_limit → ⊥) }
    ensures bounds { IfOk result (λ values. (i : ℕ) → i < length values
        → HasNumberPastBounds (tree_at store.new (slice_index values i)) → ⊥) }
    ensures refusal { IfErr result (λ error. (r : Region) → IsGraphOf r graph.now
        → IsValueRefusal r graph.now parts_limit error) }
    ensures kept { Extends store.old store.new }
{
    value_compact(alloc, graph.compact(), store, parts_limit)
}
