//! Why a record gives no position.

ghost use Rattle.std.specs.Prelude.{◌≡◌};
ghost use Rattle.sgf_go.specs.declared.fault.GoError.TheVariants.{Memory};

use go_grid::Point;
use sgf_tree::TreeFault;
use std::alloc::AllocError;
use std::fmt;
use thiserror::Error;

/// What is wrong with a record. The numbers are those of nodes of the main line, counted from 0.
#[derive(Clone, Copy, PartialEq, Eq, Error)]
pub enum SetupFault {
    /// GM is there and isn't `1`.
    #[error("wrong game")]
    WrongGame,
    /// SZ isn't `n` or `columns:rows` with numbers from 1 to 25.
    #[error("bad size")]
    BadSize,
    /// KM isn't a komi.
    #[error("bad komi")]
    BadKomi,
    /// A value of AB, AW, AE, TB or TW is neither a point of the board nor a rectangle on it, or the value of a move
    /// neither a point nor a pass.
    #[error(fmt = bad_point)]
    BadPoint(u32),
    /// PL names no colour.
    #[error("bad side")]
    BadSide,
    /// A move at a point that isn't empty.
    #[error(fmt = occupied)]
    Occupied(u32),
    /// A move that would leave its own chain without a liberty.
    #[error(fmt = suicide)]
    Suicide(u32),
    /// The lowest point that is marked for both colours.
    #[error(fmt = marked_twice)]
    MarkedTwice(Point),
    /// At the end, the lowest stone whose chain has no liberty.
    #[error(fmt = no_liberty)]
    NoLiberty(Point),
}

// As the message: what a derive writes is dearer to prove.
impl fmt::Debug for SetupFault {
    fn fmt<W: fmt::Write>(&self, f: &mut fmt::Formatter<W>) -> fmt::Result {
        fmt::Display::fmt(self, f)
    }
}

// Each message with a number is a function of its own, which is far cheaper to prove than one in all.

fn at_node<W: fmt::Write>(what: &str, node: u32, f: &mut fmt::Formatter<W>) -> fmt::Result {
    write!(f, "{what} at node {node}")
}

fn at_point<W: fmt::Write>(what: &str, point: Point, f: &mut fmt::Formatter<W>) -> fmt::Result {
    let number = point.0;
    write!(f, "{what} at point {number}")
}

fn bad_point<W: fmt::Write>(node: &u32, f: &mut fmt::Formatter<W>) -> fmt::Result {
    at_node("bad point", *node, f)
}

fn occupied<W: fmt::Write>(node: &u32, f: &mut fmt::Formatter<W>) -> fmt::Result {
    at_node("occupied", *node, f)
}

fn suicide<W: fmt::Write>(node: &u32, f: &mut fmt::Formatter<W>) -> fmt::Result {
    at_node("suicide", *node, f)
}

fn marked_twice<W: fmt::Write>(point: &Point, f: &mut fmt::Formatter<W>) -> fmt::Result {
    at_point("marked twice", *point, f)
}

fn no_liberty<W: fmt::Write>(point: &Point, f: &mut fmt::Formatter<W>) -> fmt::Result {
    at_point("no liberty", *point, f)
}

/// What is wrong with a file: its tree, or the position of its main line.
#[derive(Clone, Copy, Debug, PartialEq, Eq)]
pub enum FileFault {
    Tree(TreeFault),
    Setup(SetupFault),
}

/// Why no position was given.
#[derive(Clone, Copy, PartialEq, Eq, Error)]
pub enum GoError {
    #[error(transparent)]
    Fault(SetupFault),
    #[error(transparent)]
    Memory(AllocError),
}

impl fmt::Debug for GoError {
    fn fmt<W: fmt::Write>(&self, f: &mut fmt::Formatter<W>) -> fmt::Result {
        fmt::Display::fmt(self, f)
    }
}

impl From<AllocError> for GoError {
    ghost from_gives = { λ cause e. e ≡ Memory cause };

    fn from(cause: AllocError) -> Self {
        GoError::Memory(cause)
    }
}
