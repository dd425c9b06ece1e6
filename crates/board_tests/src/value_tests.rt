//! Values of worked regions.

ghost use Rattle.std.specs.Prelude.{◌≡◌, ◌<◌, ◌≤◌, IfSome, length};
ghost use Rattle.go_grid.specs.Region.{Region};
ghost use Rattle.local_trees.specs.GraphPlaces.{IsGraphOf};

use drawings::{Drawing, region};
use dyadic_num::Dyadic;
use game_canon::FormError;
use game_store::{GameId, Store};
use go_grid::Region;
use local_graph::{Graph, build};
use local_play::Steps;
use local_value::value_all;
use std::alloc::{AllocError, Global};
use std::marker::Brand;
use std::sync::ledger::{Blank, Ledger};
use worked_forms::form;

/// Two groups of the players meet at one point.
const ONE_POINT: Drawing = Drawing {
    columns: 1,
    rows: 1,
    cells: b"",
    black: b"X",
    white: b"X",
};

/// Two points of a Black corridor, which White's stones close at the second.
const TWO_POINTS: Drawing = Drawing {
    columns: 2,
    rows: 1,
    cells: b"",
    black: b"XX",
    white: b".X",
};

/// The graph of a region, where it has one of at most a million positions.
fn graph_of<L: Ledger>(alloc: Global, blank: Blank, region: &Region) -> Option<Graph>
    requires name { blank.name ≡ L.name }
    requires parts { blank.parts ≡ L.parts }
    requires some { 0 < blank.parts }
    ensures graph { IfSome result (λ g. (r : Region) × IsGraphOf r g) }
    ensures few { IfSome result (λ g. length g.positions ≤ 1000000) }
{
    let _size = region.size;
    match build(alloc, region, 1000000, &mut Steps::<L>::new(blank)) {
        Ok(graph) => {
            if graph.len() > 1000000 {
                return None;
            }
            Some(graph)
        }
        Err(_error) => None,
    }
}

/// The value of a region's opening, or want of memory where it has no graph.
fn opening_value<L: Ledger>(
    alloc: Global,
    blank: Blank,
    store: &mut Store,
    drawn: Drawing,
    parts_limit: u32,
) -> Result<GameId, FormError>
    requires name { blank.name ≡ L.name }
    requires parts { blank.parts ≡ L.parts }
    requires some { 0 < blank.parts }
{
    let region = region(alloc, drawn)?;
    let Some(graph) = graph_of::<L>(alloc, blank, &region) else {
        return Err(FormError::Memory(AllocError));
    };
    let values = value_all(alloc, &graph, store, parts_limit)?;
    values
        .as_slice()
        .first()
        .copied()
        .ok_or(FormError::Memory(AllocError))
}

/// A star, and the switch between one and a star.
fn star_and_switch(alloc: Global, store: &mut Store) -> Result<[GameId; 2], FormError> {
    let zero = store.number(Dyadic::whole(0))?;
    let one = store.number(Dyadic::whole(1))?;
    let star = form(alloc, store, &[zero], &[zero])?;
    let switch = form(alloc, store, &[one], &[star])?;
    Ok([star, switch])
}

/// Whether this is what comes of a region's opening.
fn has_value(
    alloc: Global,
    store: &mut Store,
    drawn: Drawing,
    parts_limit: u32,
    want: Result<GameId, FormError>,
) -> bool {
    opening_value::<Brand>(alloc, Blank::new(1), store, drawn, parts_limit) == want
}

/// Whether the openings have the values that are known.
fn are_values(alloc: Global, store: &mut Store) -> Result<bool, FormError> {
    let [star, switch] = star_and_switch(alloc, store)?;
    Ok(
        has_value(alloc, store, ONE_POINT, 1, Ok(star))
            && has_value(alloc, store, TWO_POINTS, 2, Ok(switch))
            && has_value(alloc, store, TWO_POINTS, 1, Err(FormError::Parts)),
    )
}

#[test]
fn openings(rt: HostRuntime) {
    assert!(rt; are_values(rt.alloc(), &mut Store::new(rt.alloc())) == Ok(true));
}
