//! The regions of play of an opening, solved.

ghost use Rattle.std.specs.Prelude.{◌≡◌, ℕ, ◌+◌, ◌<◌, ◌≤◌, IfErr, IfOk, length, replicate, slice_index};
ghost use Rattle.game_store.specs.Meaning.{Extends};
ghost use Rattle.sum_outcome.specs.Memo.{Fits};
ghost use Rattle.endgame_solver.specs.Faults.{AreRefused, AreSmallRegions, most_steps};
ghost use Rattle.endgame_solver.specs.inner.Sharing.{AreSharedBy};
ghost use Rattle.endgame_solver.specs.inner.Views.{seen_ids};

use crate::faults::SolveError;
use crate::known::{Known, first_known};
use crate::limits::Limits;
use crate::region_values::solve_regions;
use crate::regions_of_play::{Start, first_large, start_of};
use crate::view_book::Book;
use game_store::Store;
use go_grid::Region;
use local_play::Steps;
use std::alloc::Global;
use std::sync::ledger::Ledger;

/// The graphs and the values of the regions, and where these stand at the opening.
#[derive(Drop)]
struct Held {
    book: Book,
    start: Start,
}

/// The same, with the store of the values and a search that fits it.
#[derive(Drop)]
pub(crate) struct SolvedRegions {
    pub(crate) known: Known,
    pub(crate) book: Book,
    pub(crate) start: Start,
}

/// The graphs and the values of regions of at most 32 points, or why the first that has none has none.
fn hold_regions<L: Ledger>(
    alloc: Global,
    regions: &[Region],
    limits: &Limits,
    store: &mut Store,
    steps: &mut Steps<L>,
) -> Result<Held, SolveError>
    requires small { AreSmallRegions regions.now }
    ensures solved { IfOk result (λ x. AreSharedBy limits.now regions.now x.book store.new) }
    ensures places { IfOk result
        (λ x. x.start.places.items ≡ replicate (length x.book.views.items) 0) }
    ensures long { IfOk result (λ x. length x.start.sum.items ≡ length x.book.views.items) }
    ensures each { IfOk result (λ x. (k : ℕ) → k < length x.book.views.items
        → slice_index x.start.sum.items k ≡ slice_index (seen_ids x.book k) 0) }
    ensures refusal { IfErr result (λ e. AreRefused limits.now regions.now e) }
    ensures kept { IfOk result (λ x. Extends store.old store.new) }
    ensures steps { steps.new ≤ steps.old + most_steps limits.now regions.now }
{
    let book = solve_regions(alloc, regions, limits, store, steps)?;
    let start = start_of(alloc, &book)?;
    Ok(Held { book, start })
}

/// The graphs and the values of all regions, or the first region of more than 32 points, or else why the first that has none has
/// none.
pub(crate) fn solve_openings<L: Ledger>(
    alloc: Global,
    regions: &[Region],
    limits: &Limits,
    steps: &mut Steps<L>,
) -> Result<SolvedRegions, SolveError>
    ensures solved { IfOk result (λ x. AreSharedBy limits.now regions.now x.book x.known.store) }
    ensures fits { IfOk result (λ x. Fits x.known.store x.known.search) }
    ensures places { IfOk result
        (λ x. x.start.places.items ≡ replicate (length x.book.views.items) 0) }
    ensures long { IfOk result (λ x. length x.start.sum.items ≡ length x.book.views.items) }
    ensures each { IfOk result (λ x. (k : ℕ) → k < length x.book.views.items
        → slice_index x.start.sum.items k ≡ slice_index (seen_ids x.book k) 0) }
    ensures refusal { IfErr result (λ e. AreRefused limits.now regions.now e) }
    ensures steps { steps.new ≤ steps.old + most_steps limits.now regions.now }
{
    if let Some((lowest, points)) = first_large(regions) {
        return Err(SolveError::Points(lowest, points));
    }
    let mut known = first_known(alloc)?;
    match hold_regions(alloc, regions, limits, &mut known.store, steps) {
        Ok(held) => Ok(SolvedRegions {
            known,
            book: held.book,
            start: held.start,
        }),
        Err(fault) => {
            drop(known);
            Err(fault)
        }
    }
}
