//! Strong components: which positions lead to each other.

ghost use Rattle.std.specs.Prelude.{ℕ, ◌≡◌, ◌^◌, ◌<◌, ◌≤◌, [], ◌∷◌, ◌++◌, length, slice_set, slice_index, IfOk, OnOk};
ghost use Rattle.std.specs.List.{AllPairs};
ghost use Rattle.local_graph.specs.inner.Built.{IsRooted};
ghost use Rattle.local_graph.specs.inner.Graph.{edges_at};
ghost use Rattle.local_graph.specs.inner.Telling.{AreComponents, AreUpTo, TellsFrom, Telling, GoesOn, IsLastTurn, mark_at, work_left};
ghost use Rattle.local_graph.specs.declared.strong_components.Mark.TheVariants.{Waiting, Told};

use crate::edge_lists::EdgeLists;
use crate::narrow::narrow;
use std::alloc::{AllocError, Global};

/// What is known of a position.
#[derive(Clone, Copy)]
pub(crate) enum Mark {
    /// It was not met.
    New,
    /// It waits at a place for its component to be told.
    Waiting(usize),
    /// The number of its component.
    Told(usize),
}

/// A position on the path by the place at which it waits, and how many of its moves are left to follow.
#[derive(Clone, Copy)]
pub(crate) struct Turn {
    at: usize,
    left: usize,
}

/// A search by depth for strong components, with a list of those so far along the path.
#[derive(Drop)]
struct ComponentSearch {
    path: Vec<Turn>,
    /// The positions met whose components aren't told yet.
    waiting: Vec<usize>,
    /// Where among those that wait each component so far begins.
    starts: Vec<usize>,
    marks: Vec<Mark>,
    /// How many components were told.
    told: usize,
}

/// Joins the components so far that begin behind a place with the one before them.
fn join(starts: &mut Vec<usize>, place: usize)
    requires { AllPairs (λ s t. s < t) starts.old.items }
    ensures { AreUpTo starts.old.items place starts.new.items }
{
    'joining: while let Some(start) = starts.last().copied() {
        if start <= place {
            return;
        }
        starts.pop();
    }
}

/// Tells the component of all positions that wait from a place on.
fn tell(waiting: &mut Vec<usize>, marks: &mut [Mark], at: usize, number: usize)
    requires inside { at ≤ length waiting.old.items }
    requires waits { (a : ℕ) → a < length waiting.old.items
        → mark_at marks.old (slice_index waiting.old.items a) ≡ Waiting a }
    ensures { TellsFrom waiting.old.items marks.old at number waiting.new.items marks.new }
{
    'telling: while waiting.len() > at {
        let Some(member) = waiting.pop() else {
            return;
        };
        marks[member] = Mark::Told(number);
    }
}

impl ComponentSearch {
    /// Meets a position.
    fn enter(&mut self, edges: &EdgeLists, node: usize) -> Result<(), AllocError>
        requires inside { node < length edges.now }
        requires long { length self.old.marks.items ≡ length edges.now }
        ensures marks { self.new.marks.items
            ≡ slice_set self.old.marks.items node (Waiting (length self.old.waiting.items)) }
        ensures waiting { OnOk result
            (self.new.waiting.items ≡ self.old.waiting.items ++ node ∷ []) }
        ensures starts { OnOk result (self.new.starts.items
            ≡ self.old.starts.items ++ length self.old.waiting.items ∷ []) }
        ensures path { OnOk result (self.new.path.items ≡ self.old.path.items ++ record {
          at = length self.old.waiting.items;
          left = length (edges_at edges.now node);
        } ∷ []) }
        ensures told { self.new.told ≡ self.old.told }
        ensures fits { OnOk result (length (edges_at edges.now node) < 2 ^ 64) }
    {
        let at = self.waiting.len();
        self.marks[node] = Mark::Waiting(at);
        self.waiting.push(node)?;
        self.starts.push(at)?;
        self.path.push(Turn {
            at,
            left: edges.at(node).len(),
        })?;
        Ok(())
    }

    /// A search that has met the opening.
    fn begin(alloc: Global, edges: &EdgeLists) -> Result<ComponentSearch, AllocError>
        requires { IsRooted edges.now }
        ensures { IfOk result (λ s. Telling edges.now s.path.items s.waiting.items s.starts.items
            s.marks.items s.told) }
    {
        let mut search = ComponentSearch {
            path: Vec::new(alloc),
            waiting: Vec::new(alloc),
            starts: Vec::new(alloc),
            marks: vec![in alloc; Mark::New; edges.len()]?,
            told: 0,
        };
        search.enter(edges, 0)?;
        Ok(search)
    }

    /// Follows the next move of the path's last position.
    fn follow(&mut self, edges: &EdgeLists, last: Turn) -> Result<bool, AllocError>
        requires rooted { IsRooted edges.now }
        requires under_way { Telling edges.now self.old.path.items self.old.waiting.items
            self.old.starts.items self.old.marks.items self.old.told }
        requires ends { IsLastTurn self.old.path.items last }
        requires more { 0 < last.left }
        ensures { IfOk result (GoesOn edges.now
            (work_left self.old.path.items self.old.marks.items) self.new.path.items
            self.new.waiting.items self.new.starts.items self.new.marks.items self.new.told) }
    {
        let left = last.left - 1;
        let next = edges.edge(self.waiting[last.at], left).next;
        let place = self.path.len() - 1;
        self.path[place] = Turn { at: last.at, left };
        match self.marks[next] {
            Mark::Told(_number) => Ok(true),
            Mark::Waiting(at) => {
                join(&mut self.starts, at);
                Ok(true)
            }
            Mark::New => {
                self.enter(edges, next)?;
                Ok(true)
            }
        }
    }

    /// Leaves the path's last position, all of whose moves were followed, and tells its component where it began one.
    fn leave(&mut self, edges: &EdgeLists, last: Turn)
        requires under_way { Telling edges.now self.old.path.items self.old.waiting.items
            self.old.starts.items self.old.marks.items self.old.told }
        requires ends { IsLastTurn self.old.path.items last }
        requires none { last.left ≡ 0 }
        ensures under_way { Telling edges.now self.new.path.items self.new.waiting.items
            self.new.starts.items self.new.marks.items self.new.told }
        ensures less { work_left self.new.path.items self.new.marks.items
            < work_left self.old.path.items self.old.marks.items }
    {
        self.path.pop();
        let Some(start) = self.starts.last().copied() else {
            return;
        };
        if start != last.at {
            return;
        }
        self.starts.pop();
        tell(&mut self.waiting, &mut self.marks, last.at, self.told);
        self.told += 1;
    }

    /// Follows a move of the path's last position, or leaves it. Whether there was one.
    fn step(&mut self, edges: &EdgeLists) -> Result<bool, AllocError>
        requires rooted { IsRooted edges.now }
        requires under_way { Telling edges.now self.old.path.items self.old.waiting.items
            self.old.starts.items self.old.marks.items self.old.told }
        ensures { IfOk result (GoesOn edges.now
            (work_left self.old.path.items self.old.marks.items) self.new.path.items
            self.new.waiting.items self.new.starts.items self.new.marks.items self.new.told) }
    {
        let Some(last) = self.path.last().copied() else {
            return Ok(false);
        };
        if last.left > 0 {
            return self.follow(edges, last);
        }
        self.leave(edges, last);
        Ok(true)
    }
}

/// The number of a component that was told. Want of memory where it doesn't fit in four bytes, which only more positions than
/// a limit allows would need.
fn number_of(mark: Mark) -> Result<u32, AllocError>
    ensures { IfOk result (λ number. (n : ℕ) → mark ≡ Told n → number ≡ n) }
{
    match mark {
        Mark::Told(number) => narrow(number),
        Mark::Waiting(_at) => Ok(0),
        Mark::New => Ok(0),
    }
}

/// The numbers of the components that were told.
fn numbers_of(alloc: Global, marks: &[Mark]) -> Result<Vec<u32>, AllocError>
    ensures long { IfOk result (λ numbers. length numbers.items ≡ length marks.now) }
    ensures told { IfOk result (λ numbers. (i n : ℕ) → mark_at marks.now i ≡ Told n
        → slice_index numbers.items i ≡ n) }
{
    let mut numbers = Vec::new(alloc);
    for mark in marks {
        numbers.push(number_of(*mark)?)?;
    }
    Ok(numbers)
}

/// By position the number of its component: two have one number exactly where moves lead from each to the other, and no
/// move leads to a greater number.
pub(crate) fn strong_components(alloc: Global, edges: &EdgeLists) -> Result<Vec<u32>, AllocError>
    requires { IsRooted edges.now }
    ensures { IfOk result (λ numbers. AreComponents edges.now numbers.items) }
{
    let mut search = ComponentSearch::begin(alloc, edges)?;
    'searching: while search.step(edges)? {}
    numbers_of(alloc, &search.marks)
}
