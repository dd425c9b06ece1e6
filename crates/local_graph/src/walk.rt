//! A walk through positions as they are found, depth first: which place comes next, and an order of the places, ends first.

ghost use Rattle.std.specs.Prelude.{◌≡◌, ◌<◌, ◌≤◌, ◌^◌, [], ◌∷◌, ◌++◌, length, false, IfOk, OnOk, IfSome, IfNone, None};
ghost use Rattle.local_graph.specs.declared.walk.Task.{Task};
ghost use Rattle.local_graph.specs.declared.walk.Task.TheVariants.{Leave};
ghost use Rattle.local_graph.specs.inner.Walk.{IsBegun, AreInside, Goes, IsAimed, IsOpened, place_of};

use crate::search::Visit;
use std::alloc::{AllocError, Global};

/// What is to be done at a place.
#[derive(Clone, Copy)]
pub(crate) enum Task {
    /// To list its moves, unless they are listed, and to go on to where they lead.
    Enter(u32),
    /// To put it in the order, behind all that its moves lead to.
    Leave(u32),
}

/// A walk through the places of positions.
#[derive(Drop)]
pub(crate) struct Walk {
    /// By place. New are those whose moves are not listed.
    pub(crate) visits: Vec<Visit>,
    /// The last is done first.
    tasks: Vec<Task>,
    order: Vec<u32>,
    has_cycle: bool,
}

impl Walk {
    /// A walk that has still to enter the place 0, of no places so far.
    pub(crate) fn new(alloc: Global) -> Result<Walk, AllocError>
        ensures { IfOk result IsBegun }
    {
        let mut tasks = Vec::new(alloc);
        tasks.reserve(1)?;
        tasks.push_reserved(Task::Enter(0));
        Ok(Walk {
            visits: Vec::new(alloc),
            tasks,
            order: Vec::new(alloc),
            has_cycle: false,
        })
    }

    /// Puts a place on the path behind the order. A place that isn't on the path makes no order.
    fn leave(&mut self, place: u32) -> Result<(), AllocError>
        requires { place < length self.old.visits.items }
        ensures tasks { self.new.tasks.items ≡ self.old.tasks.items }
        ensures goes { IfOk result (λ _. Goes self.old (self.old.tasks.items ++ Leave place ∷ [])
            self.new None) }
    {
        let Visit::OnPath = self.visits[place as usize] else {
            self.has_cycle = true;
            return Ok(());
        };
        self.order.reserve(1)?;
        self.order.push_reserved(place);
        self.visits[place as usize] = Visit::Placed;
        Ok(())
    }

    /// Does a task, but for entering a new place, which it answers.
    #[inline(always)]
    fn take(&mut self, task: Task) -> Result<Option<u32>, AllocError>
        requires { place_of task < length self.old.visits.items }
        ensures tasks { self.new.tasks.items ≡ self.old.tasks.items }
        ensures goes { IfOk result (Goes self.old (self.old.tasks.items ++ task ∷ []) self.new) }
    {
        match task {
            Task::Leave(place) => {
                self.leave(place)?;
                Ok(None)
            }
            Task::Enter(place) => match self.visits[place as usize] {
                Visit::New => Ok(Some(place)),
                Visit::OnPath => {
                    self.has_cycle = true;
                    Ok(None)
                }
                Visit::Placed => Ok(None),
            },
        }
    }

    /// The new place to be entered next. None where no task is left.
    pub(crate) fn next(&mut self) -> Result<Option<u32>, AllocError>
        requires { AreInside self.old.visits.items self.old.tasks.items }
        ensures goes { IfOk result (Goes self.old self.old.tasks.items self.new) }
        ensures done { IfOk result (λ found. IfNone found (self.new.tasks.items ≡ [])) }
    {
        'passing: while let Some(task) = self.tasks.pop() {
            if let Some(place) = self.take(task)? {
                return Ok(Some(place));
            }
        }
        Ok(None)
    }

    /// Begins with a place: it is left when all that is put behind the tasks later is done.
    pub(crate) fn open(&mut self, place: u32) -> Result<(), AllocError>
        ensures { OnOk result (IsOpened place self.old self.new) }
    {
        self.tasks.reserve(1)?;
        self.tasks.push_reserved(Task::Leave(place));
        Ok(())
    }

    /// Puts the entering of a place behind the tasks, unless it is in the order.
    #[inline(always)]
    pub(crate) fn aim(&mut self, place: usize) -> Result<(), AllocError>
        requires place { place < length self.old.visits.items }
        requires few { length self.old.visits.items ≤ 2 ^ 32 }
        ensures { OnOk result (IsAimed place self.old self.new) }
    {
        if let Visit::Placed = self.visits[place] {
            return Ok(());
        }
        self.tasks.reserve(1)?;
        self.tasks.push_reserved(Task::Enter(place as u32));
        Ok(())
    }

    /// The order of all places, if no cycle was met.
    pub(crate) fn into_order(self) -> Option<Vec<u32>>
        ensures { IfSome result (λ order. (self.has_cycle ≡ false)
            × (order.items ≡ self.order.items)) }
    {
        if self.has_cycle {
            return None;
        }
        Some(self.order)
    }
}
