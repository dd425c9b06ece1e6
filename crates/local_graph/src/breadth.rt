//! Ways with the fewest moves, by breadth, and the cycle that comes soonest. Who shows what was found checks it, so no contract
//! speaks of it here.

use crate::components::on_cycles;
use crate::edge_lists::EdgeLists;
use crate::search::Frame;
use std::alloc::{AllocError, Global};

/// A position that was met, the place of the step that it was met from, the number of the edge
/// between them, and how many moves lead there.
#[derive(Clone, Copy)]
struct Step {
    node: usize,
    from: usize,
    edge: usize,
    moves: usize,
}

/// The place of a step from which a move leads to what was looked for, that move, and how many moves lead there.
#[derive(Clone, Copy)]
struct Found {
    at: usize,
    last: Frame,
    moves: usize,
}

/// Whether a position has a mark.
fn is_marked(marks: &[bool], node: usize) -> bool {
    marks.get(node) == Some(&true)
}

/// Sets the mark of a position.
fn set_mark(marks: &mut [bool], node: usize, mark: bool) {
    if let Some(place) = marks.get_mut(node) {
        *place = mark;
    }
}

/// The step of a position that is met first.
fn first_step(node: usize) -> Step {
    Step {
        node,
        from: 0,
        edge: 0,
        moves: 0,
    }
}

impl Step {
    /// The step to a position along the edge with a number, from this one, which stands at a place.
    fn next(self, at: usize, edge: usize, node: usize) -> Step {
        Step {
            node,
            from: at,
            edge,
            moves: self.moves.saturating_add(1),
        }
    }

    /// That the edge with a number, from this step at a place, leads to what was looked for.
    fn found(self, at: usize, edge: usize) -> Found {
        Found {
            at,
            last: Frame {
                node: self.node,
                left: edge,
            },
            moves: self.moves.saturating_add(1),
        }
    }
}

/// A search by breadth.
#[derive(Drop)]
struct Breadth {
    steps: Vec<Step>,
    /// By position the round in which it was met last.
    rounds: Vec<usize>,
    round: usize,
}

impl Breadth {
    /// A search before its first round.
    fn new(alloc: Global, edges: &EdgeLists) -> Result<Breadth, AllocError> {
        let rounds = vec![in alloc; 0; edges.len()]?;
        Ok(Breadth {
            steps: Vec::new(alloc),
            rounds,
            round: 0,
        })
    }

    /// Notes that a position is met in this round. Whether it wasn't met before.
    fn enters(&mut self, node: usize) -> bool {
        let Some(met) = self.rounds.get_mut(node) else {
            return false;
        };
        let is_new = *met != self.round;
        *met = self.round;
        is_new
    }

    /// Meets a position, if it wasn't met in this round.
    fn meet(&mut self, step: Step) -> Result<(), AllocError> {
        if self.enters(step.node) {
            self.steps.push(step)?;
        }
        Ok(())
    }

    /// Follows the moves of a step at a place, but those to positions that are left out. The number of the first that leads to a
    /// target.
    fn follow(
        &mut self,
        edges: &EdgeLists,
        at: usize,
        step: Step,
        left_out: &[bool],
        targets: &[bool],
    ) -> Result<Option<usize>, AllocError> {
        let moves = edges.any_at(step.node);
        'following: for number in 0..moves.len() {
            let next = moves.get(number).next;
            if is_marked(targets, next) {
                return Ok(Some(number));
            }
            if !is_marked(left_out, next) {
                self.meet(step.next(at, number, next))?;
            }
        }
        Ok(None)
    }

    /// The step at a place, if fewer moves lead there.
    fn step_within(&self, at: usize, most: usize) -> Option<Step> {
        let step = self.steps.get(at)?;
        if step.moves >= most {
            return None;
        }
        Some(*step)
    }

    /// Begins a round with a position.
    fn begin(&mut self, from: usize) -> Result<(), AllocError> {
        self.steps.clear();
        self.round = self.round.saturating_add(1);
        self.meet(first_step(from))
    }

    /// Meets the positions that at most so many moves lead to from one, without those that are left out, until
    /// one is met from which a move leads to a target.
    fn spread(
        &mut self,
        edges: &EdgeLists,
        from: usize,
        left_out: &[bool],
        targets: &[bool],
        most: usize,
    ) -> Result<Option<Found>, AllocError> {
        self.begin(from)?;
        'spreading: for at in 0..usize::MAX {
            let Some(step) = self.step_within(at, most) else {
                break;
            };
            if let Some(edge) = self.follow(edges, at, step, left_out, targets)? {
                return Ok(Some(step.found(at, edge)));
            }
        }
        Ok(None)
    }

    /// How many moves lead from the opening to the first position on a cycle.
    fn moves_to_first(
        &mut self,
        edges: &EdgeLists,
        on_cycle: &[bool],
    ) -> Result<usize, AllocError> {
        if is_marked(on_cycle, 0) {
            return Ok(0);
        }
        match self.spread(edges, 0, &[], on_cycle, usize::MAX)? {
            Some(found) => Ok(found.moves),
            None => Ok(0),
        }
    }

    /// Meets the positions that as many moves lead to from the opening as to the first on a cycle, or fewer. How many these are.
    fn spread_to_first(
        &mut self,
        edges: &EdgeLists,
        on_cycle: &[bool],
    ) -> Result<usize, AllocError> {
        let moves = self.moves_to_first(edges, on_cycle)?;
        self.spread(edges, 0, &[], &[], moves)?;
        Ok(moves)
    }
}

/// The place of the step before the one at a place, and its frame. None at the first.
fn step_back(steps: &[Step], at: usize) -> Option<(usize, Frame)> {
    let step = steps.get(at)?;
    if step.moves == 0 {
        return None;
    }
    let before = steps.get(step.from)?;
    let frame = Frame {
        node: before.node,
        left: step.edge,
    };
    Some((step.from, frame))
}

/// Puts the frames of the way that the steps took to the one at a place behind others.
fn add_way(
    alloc: Global,
    path: &mut Vec<Frame>,
    steps: &[Step],
    at: usize,
) -> Result<(), AllocError> {
    let mut way = Vec::new(alloc);
    let mut last = at;
    'going_back: for _move in 0..at {
        let Some((before, frame)) = step_back(steps, last) else {
            break;
        };
        last = before;
        way.push(frame)?;
    }
    way.reverse();
    path.extend_from_slice(&way)?;
    Ok(())
}

/// A path from the opening that returns to one of its positions.
#[derive(Drop)]
pub(crate) struct RoundTrip {
    pub(crate) path: Vec<Frame>,
    /// The position that it returns to.
    pub(crate) node: usize,
}

impl RoundTrip {
    /// How many moves a way around may have behind so many, if the whole is to have fewer than this path.
    fn most_behind(&self, moves: usize) -> usize {
        match self.path.len().checked_sub(1) {
            Some(fewer) => fewer.saturating_sub(moves),
            None => usize::MAX,
        }
    }

    /// Takes the way of the opening's steps to the one at a place, and from there around by other steps.
    fn take(
        &mut self,
        alloc: Global,
        opening: &[Step],
        at: usize,
        around: &[Step],
        found: Found,
    ) -> Result<(), AllocError> {
        self.path.clear();
        add_way(alloc, &mut self.path, opening, at)?;
        add_way(alloc, &mut self.path, around, found.at)?;
        self.path.push(found.last)?;
        Ok(())
    }
}

/// Marks by position: which are left out of a search, and which it looks for.
#[derive(Drop)]
struct Marks {
    left_out: Vec<bool>,
    targets: Vec<bool>,
}

impl Marks {
    /// No marks, for so many positions.
    fn new(alloc: Global, count: usize) -> Result<Marks, AllocError> {
        let left_out = vec![in alloc; false; count]?;
        let targets = vec![in alloc; false; count]?;
        Ok(Marks { left_out, targets })
    }
}

/// The search for the path that returns soonest: the way around from a position, what is left out and looked for, and the
/// best path so far.
#[derive(Drop)]
struct Returning {
    around: Breadth,
    marks: Marks,
    best: RoundTrip,
}

impl Returning {
    /// Before a position was tried.
    fn new(alloc: Global, edges: &EdgeLists) -> Result<Returning, AllocError> {
        let around = Breadth::new(alloc, edges)?;
        let marks = Marks::new(alloc, edges.len())?;
        Ok(Returning {
            around,
            marks,
            best: RoundTrip {
                path: Vec::new(alloc),
                node: 0,
            },
        })
    }

    /// The way from a position back to it, if it has at most so many moves.
    fn way_around(
        &mut self,
        edges: &EdgeLists,
        node: usize,
        most: usize,
    ) -> Result<Option<Found>, AllocError> {
        let marks = &mut self.marks;
        set_mark(&mut marks.targets, node, true);
        let found = self
            .around
            .spread(edges, node, &marks.left_out, &marks.targets, most)?;
        set_mark(&mut marks.targets, node, false);
        Ok(found)
    }

    /// Takes the way to a step at a place and from there back to its position for the best, if it is the first or has fewer moves.
    fn return_to(
        &mut self,
        alloc: Global,
        edges: &EdgeLists,
        opening: &[Step],
        at: usize,
        step: Step,
    ) -> Result<(), AllocError> {
        let most = self.best.most_behind(step.moves);
        let Some(found) = self.way_around(edges, step.node, most)? else {
            return Ok(());
        };
        self.best.node = step.node;
        self.best
            .take(alloc, opening, at, &self.around.steps, found)
    }

    /// Tries the position of each step that so many moves lead to, where it is on a cycle. A position that was tried is left out
    /// from then on.
    fn try_all(
        &mut self,
        alloc: Global,
        edges: &EdgeLists,
        opening: &[Step],
        on_cycle: &[bool],
        moves: usize,
    ) -> Result<(), AllocError> {
        'returning: for at in 0..opening.len() {
            let step = opening[at];
            if step.moves == moves && is_marked(on_cycle, step.node) {
                self.return_to(alloc, edges, opening, at, step)?;
            }
            set_mark(&mut self.marks.left_out, step.node, true);
        }
        Ok(())
    }
}

/// Of the paths that return, the steps to whose position so many moves lead, one with the fewest moves.
fn soonest_of(
    alloc: Global,
    edges: &EdgeLists,
    opening: &[Step],
    on_cycle: &[bool],
    moves: usize,
) -> Result<RoundTrip, AllocError> {
    let mut returning = Returning::new(alloc, edges)?;
    returning.try_all(alloc, edges, opening, on_cycle, moves)?;
    Ok(returning.best)
}

/// Of the paths that return, one with the fewest moves before the position that returns, and of those one with
/// the fewest moves. It is looked for and not proved to be one: who shows it checks that it returns.
pub(crate) fn soonest_return(alloc: Global, edges: &EdgeLists) -> Result<RoundTrip, AllocError> {
    let on_cycle = on_cycles(alloc, edges)?;
    let mut breadth = Breadth::new(alloc, edges)?;
    let moves = breadth.spread_to_first(edges, &on_cycle)?;
    soonest_of(alloc, edges, &breadth.steps, &on_cycle, moves)
}
