//! Which positions lie on cycles. The cycle that is found by it is checked, so no contract speaks of it here.

use crate::edge_lists::EdgeLists;
use crate::search::Frame;
use std::alloc::{AllocError, Global};

/// The number of a position, or 0 where it has none.
fn number_of(numbers: &[usize], node: usize) -> usize {
    match numbers.get(node) {
        Some(number) => *number,
        None => 0,
    }
}

/// Sets the number of a position.
fn set_number(numbers: &mut [usize], node: usize, number: usize) {
    if let Some(place) = numbers.get_mut(node) {
        *place = number;
    }
}

/// The frame with one move fewer to follow, and the position to which that move leads. None where all were followed.
fn next_of(edges: &EdgeLists, frame: Frame) -> Option<(Frame, usize)> {
    let left = frame.left.checked_sub(1)?;
    let node = frame.node;
    let moves = edges.any_at(node);
    if left >= moves.len() {
        return None;
    }
    Some((Frame { node, left }, moves.get(left).next))
}

/// A search by depth for strong components (Tarjan 1972).
#[derive(Drop)]
struct Components {
    path: Vec<Frame>,
    /// The positions met whose components aren't told yet.
    waiting: Vec<usize>,
    /// How many positions were met.
    met: usize,
    /// By position its number in the order of meeting, from 1 on; 0 before it is met, and the greatest
    /// number once its component is told.
    numbers: Vec<usize>,
    /// By position the lowest number that its moves are known to lead to.
    lowest: Vec<usize>,
    /// By position whether it lies on a cycle, once its component is told.
    on_cycle: Vec<bool>,
}

impl Components {
    /// A search before it has met a position.
    fn new(alloc: Global, count: usize) -> Result<Components, AllocError> {
        let numbers = vec![in alloc; 0; count]?;
        let lowest = vec![in alloc; 0; count]?;
        let on_cycle = vec![in alloc; false; count]?;
        Ok(Components {
            path: Vec::new(alloc),
            waiting: Vec::new(alloc),
            met: 0,
            numbers,
            lowest,
            on_cycle,
        })
    }

    /// Meets a position.
    fn enter(&mut self, edges: &EdgeLists, node: usize) -> Result<(), AllocError> {
        self.met = self.met.saturating_add(1);
        set_number(&mut self.numbers, node, self.met);
        set_number(&mut self.lowest, node, self.met);
        self.waiting.push(node)?;
        let left = edges.any_at(node).len();
        self.path.push(Frame { node, left })?;
        Ok(())
    }

    /// Notes that the moves of a position lead to a number.
    fn lower(&mut self, node: usize, number: usize) {
        let lowest = number_of(&self.lowest, node).min(number);
        set_number(&mut self.lowest, node, lowest);
    }

    /// Follows a move from the last position of the path, whose frame is this from now on, to another.
    fn follow(&mut self, edges: &EdgeLists, frame: Frame, next: usize) -> Result<(), AllocError> {
        self.path.push(frame)?;
        let number = number_of(&self.numbers, next);
        if number == 0 {
            return self.enter(edges, next);
        }
        self.lower(frame.node, number);
        Ok(())
    }

    /// Tells the component of the position that waits last, which is alone in it or not.
    fn tell_last(&mut self, alone: bool) -> Option<usize> {
        let member = self.waiting.pop()?;
        set_number(&mut self.numbers, member, usize::MAX);
        if let Some(mark) = self.on_cycle.get_mut(member) {
            *mark = !alone;
        }
        Some(member)
    }

    /// Tells the component of a position that none of its moves led back behind.
    fn tell(&mut self, node: usize) {
        let alone = self.waiting.last() == Some(&node);
        'telling: for _member in 0..self.waiting.len() {
            if self.tell_last(alone) == Some(node) {
                return;
            }
        }
    }

    /// Leaves a position all of whose moves were followed.
    fn leave(&mut self, node: usize) {
        let lowest = number_of(&self.lowest, node);
        if lowest == number_of(&self.numbers, node) {
            self.tell(node);
        }
        if let Some(before) = self.path.last().copied() {
            self.lower(before.node, lowest);
        }
    }

    /// Follows a move of the last position of the path, or leaves it. Whether there was one.
    fn step(&mut self, edges: &EdgeLists) -> Result<bool, AllocError> {
        let Some(last) = self.path.pop() else {
            return Ok(false);
        };
        match next_of(edges, last) {
            Some((frame, next)) => self.follow(edges, frame, next)?,
            None => self.leave(last.node),
        }
        Ok(true)
    }

    /// Meets all positions, from the opening on.
    fn meet_all(&mut self, edges: &EdgeLists) -> Result<(), AllocError> {
        self.enter(edges, 0)?;
        'meeting: for _step in 0..u64::MAX {
            if !self.step(edges)? {
                break;
            }
        }
        Ok(())
    }
}

/// By position whether it lies on a cycle.
pub(crate) fn on_cycles(alloc: Global, edges: &EdgeLists) -> Result<Vec<bool>, AllocError> {
    let mut components = Components::new(alloc, edges.len())?;
    components.meet_all(edges)?;
    Ok(components.on_cycle)
}
