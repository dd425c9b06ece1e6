//! Values of worked regions in which a colour has a budget of captures that return.

ghost use Rattle.std.specs.Prelude.{◌≡◌, ◌<◌, ◌≤◌, IfSome, length};
ghost use Rattle.go_grid.specs.Region.{Region};
ghost use Rattle.local_value.specs.BudgetValues.{IsReturnGraphOf};

use crate::asserts::none_wrong;
use drawings::{Drawing, region};
use game_canon::FormError;
use game_store::{GameId, Store};
use game_text::read;
use go_grid::{Colour, Region};
use local_graph::{ReturnGraph, build_with_returns};
use local_play::Steps;
use local_value::{BudgetError, SteadyValues, value_steady};
use std::alloc::{AllocError, Global};
use std::marker::Brand;
use std::sync::ledger::{Blank, Ledger};

/// Two points of a Black corridor, which White's stones close at the second.
const CORRIDOR: Drawing = Drawing {
    columns: 2,
    rows: 1,
    cells: b"..",
    black: b"XX",
    white: b".X",
};

/// A ko for half a point: two points, each touched by one player's stones.
const HALF_POINT: Drawing = Drawing {
    black: b"X.",
    ..CORRIDOR
};

/// The same after Black's stone at the second point.
const DIRECT: Drawing = Drawing {
    cells: b".X",
    ..HALF_POINT
};

/// Three points, of which Black's stones touch the first two.
const OPEN: Drawing = Drawing {
    columns: 3,
    rows: 1,
    cells: b"...",
    black: b"XX.",
    white: b"...",
};

/// Three points, the first touched by Black's stones and the last by White's: a ko of two steps.
const STEPS: Drawing = Drawing {
    black: b"X..",
    white: b"..X",
    ..OPEN
};

/// For the drawing of a region and a colour, the value of the opening with each budget up to the least steady one.
static LAYERS: [(Drawing, Colour, &str); 10] = [
    (CORRIDOR, Colour::Black, "{1|*}"),
    (CORRIDOR, Colour::White, "{1|*}"),
    (HALF_POINT, Colour::Black, "{*|-1}"),
    (HALF_POINT, Colour::White, "{1|*}"),
    (DIRECT, Colour::Black, "{0|-2}"),
    (DIRECT, Colour::White, "1"),
    (OPEN, Colour::Black, "{2|*} {2|1}"),
    (OPEN, Colour::White, "3"),
    (STEPS, Colour::Black, "{0|-2} {0|{-1|-1}} {0|{-1|-1}} * *"),
    (STEPS, Colour::White, "{2|0} {{1|1}|0} {{1|1}|0} * *"),
];

/// A value with too many parts.
const PARTS: BudgetError = BudgetError::Form(FormError::Parts);

/// With a most budget and a limit on parts, why there are no values.
static REFUSALS: [(Drawing, Colour, u8, u32, BudgetError); 8] = [
    (OPEN, Colour::Black, 0, 500, BudgetError::Captures),
    (STEPS, Colour::Black, 0, 500, BudgetError::Captures),
    (STEPS, Colour::White, 1, 500, BudgetError::Captures),
    (STEPS, Colour::Black, 3, 500, BudgetError::Captures),
    (CORRIDOR, Colour::Black, 0, 1, PARTS),
    (HALF_POINT, Colour::Black, 0, 1, PARTS),
    (DIRECT, Colour::White, 1, 0, PARTS),
    (STEPS, Colour::Black, 0, 1, PARTS),
];

/// The graph of a region, where it has one of at most a million positions.
fn graph_of<L: Ledger>(alloc: Global, blank: Blank, region: &Region) -> Option<ReturnGraph>
    requires name { blank.name ≡ L.name }
    requires parts { blank.parts ≡ L.parts }
    requires some { 0 < blank.parts }
    ensures graph { IfSome result (λ g. (r : Region) × IsReturnGraphOf r g) }
    ensures few { IfSome result (λ g. length g.positions ≤ 1000000) }
{
    let _size = region.size;
    match build_with_returns(alloc, region, 1000000, &mut Steps::<L>::new(blank)) {
        Ok(graph) => {
            if graph.graph().len() > 1000000 {
                return None;
            }
            Some(graph)
        }
        Err(_error) => None,
    }
}

/// Want of memory.
fn wanting() -> BudgetError {
    BudgetError::Form(FormError::Memory(AllocError))
}

/// The values of a drawn region.
fn values_of<L: Ledger>(
    alloc: Global,
    blank: Blank,
    store: &mut Store,
    row: (Drawing, Colour, u8, u32),
) -> Result<SteadyValues, BudgetError>
    requires name { blank.name ≡ L.name }
    requires parts { blank.parts ≡ L.parts }
    requires some { 0 < blank.parts }
{
    let (drawn, owner, most, parts_limit) = row;
    let Ok(region) = region(alloc, drawn) else {
        return Err(wanting());
    };
    match graph_of::<L>(alloc, blank, &region) {
        Some(graph) => value_steady(alloc, &graph, owner, store, most, parts_limit),
        None => Err(wanting()),
    }
}

/// Whether the opening's value with a budget is the game of a text.
fn is_value(
    alloc: Global,
    store: &mut Store,
    values: &SteadyValues,
    budget: usize,
    text: &str,
) -> bool {
    let Ok(id) = read(alloc, store, text.as_bytes(), 500) else {
        return false;
    };
    let opening = values.with(budget).as_slice().first().copied();
    opening.map(GameId::from) == Some(id)
}

/// Whether the opening's values with each budget up to the least steady one are the games of the texts, and the layer of the last
/// serves a greater one.
fn are_values(alloc: Global, store: &mut Store, values: &SteadyValues, texts: &str) -> bool {
    for (budget, text) in texts.split(' ').enumerate() {
        if !is_value(alloc, store, values, budget, text) {
            return false;
        }
    }
    texts.split(' ').count().checked_sub(1) == Some(values.budget())
        && values.with(100).as_slice() == values.values().as_slice()
}

/// Whether the drawn region has the values of the texts, with a most budget of four.
fn has_layers(alloc: Global, store: &mut Store, row: &(Drawing, Colour, &str)) -> bool {
    match values_of::<Brand>(alloc, Blank::new(1), store, (row.0, row.1, 4, 500)) {
        Ok(values) => are_values(alloc, store, &values, row.2),
        Err(_error) => false,
    }
}

/// Whether the drawn region has no values, for this reason.
fn has_refusal(
    alloc: Global,
    store: &mut Store,
    row: &(Drawing, Colour, u8, u32, BudgetError),
) -> bool {
    match values_of::<Brand>(alloc, Blank::new(1), store, (row.0, row.1, row.2, row.3)) {
        Ok(_values) => false,
        Err(error) => error == row.4,
    }
}

/// The first row of the table with layers that isn't so.
fn wrong_layers(alloc: Global) -> Option<usize> {
    for (at, row) in LAYERS.iter().enumerate() {
        if !has_layers(alloc, &mut Store::new(alloc), row) {
            return Some(at);
        }
    }
    None
}

/// The first row of the table of refusals that isn't so.
fn wrong_refusal(alloc: Global) -> Option<usize> {
    for (at, row) in REFUSALS.iter().enumerate() {
        if !has_refusal(alloc, &mut Store::new(alloc), row) {
            return Some(at);
        }
    }
    None
}

#[test]
fn layers(rt: HostRuntime) {
    none_wrong(&rt, wrong_layers(rt.alloc()));
}

#[test]
fn refusals(rt: HostRuntime) {
    none_wrong(&rt, wrong_refusal(rt.alloc()));
}
