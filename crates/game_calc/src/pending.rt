//! What is kept while a line is read.

use crate::amounts::{Amount, Opening, Pass};

/// What a line asks for: the value of a sum, or the order of two.
#[derive(Clone, Copy)]
pub(crate) enum Asked {
    Value(Amount),
    Order(Amount, Amount),
}

/// What is due: a term, or what may stand behind one.
#[derive(Clone, Copy)]
pub(crate) enum Place {
    Term(Opening),
    Behind(Amount),
}

/// A place of the line, and what is due there.
#[derive(Clone, Copy)]
pub(crate) struct Step {
    pub(crate) at: usize,
    pub(crate) place: Place,
}

/// What a token leads to: the next step, or what the whole line asks for.
#[derive(Clone, Copy)]
pub(crate) enum Turn {
    Next(Step),
    Whole(Asked),
}

/// What stands before each parenthesis that is open, the innermost last; and the first sum, once its `?` was read.
#[derive(Drop)]
pub(crate) struct Pending {
    pub(crate) opens: Vec<Opening>,
    pub(crate) first: Option<Amount>,
}

/// A line, how many parts a form may have, and what the pass over the line does with its sums.
#[derive(Clone, Copy)]
pub(crate) struct Source<'a> {
    pub(crate) text: &'a [u8],
    pub(crate) parts_limit: u32,
    pub(crate) pass: Pass,
}
