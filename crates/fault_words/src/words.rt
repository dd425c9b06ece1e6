//! The words of faults of regions.

ghost use Rattle.std.specs.Prelude.{◌≡◌, ◌<◌, ◌*◌, ◌++◌, All, IfOk, OnOk, flat_map, string_bytes};
ghost use Rattle.fault_words.specs.Naming.{name_by};
ghost use Rattle.fault_words.specs.FaultWords.{AreFaultWords, cycle_move, cycle_words, form_words, points_words, positions_words};
ghost use Rattle.fault_words.specs.NamedPoints.{NamesPoints};

use crate::naming::{Naming, write_point_name};
use board_words::colour_word;
use endgame_solver::{Limits, SolveError};
use go_grid::{Colour, Point, Size};
use std::alloc::{AllocError, Global};

/// The words on a region of too many points.
#[tactic(auto, using(std::proofs::Common::append_assoc), unfolding(crate::specs::FaultWords::points_words))]
pub fn points_words(
    alloc: Global,
    naming: Naming,
    size: Size,
    lowest: Point,
    points: u16,
) -> Result<String, AllocError>
    requires { lowest < size.columns * size.rows }
    ensures { IfOk result (λ text. string_bytes text
        ≡ points_words (name_by naming size.columns size.rows) lowest points) }
{
    let mut text = String::new(alloc);
    text.push_str("region ")?;
    write_point_name(alloc, &mut text, naming, size, lowest)?;
    write!(text, " points {points}")?;
    Ok(text)
}

/// The words on a region of more positions than the limit.
#[tactic(auto, using(std::proofs::Common::append_assoc), unfolding(crate::specs::FaultWords::positions_words))]
pub fn positions_words(
    alloc: Global,
    naming: Naming,
    size: Size,
    lowest: Point,
    limit: u32,
) -> Result<String, AllocError>
    requires { lowest < size.columns * size.rows }
    ensures { IfOk result (λ text. string_bytes text
        ≡ positions_words (name_by naming size.columns size.rows) lowest limit) }
{
    let mut text = String::new(alloc);
    text.push_str("region ")?;
    write_point_name(alloc, &mut text, naming, size, lowest)?;
    write!(text, " positions over {limit}")?;
    Ok(text)
}

/// Appends a move of a cycle, behind a blank.
#[tactic(auto, using(std::proofs::Common::append_assoc), unfolding(crate::specs::FaultWords::cycle_move))]
fn write_move(
    alloc: Global,
    text: &mut String,
    naming: Naming,
    size: Size,
    colour: Colour,
    point: Point,
) -> Result<(), AllocError>
    requires { point < size.columns * size.rows }
    ensures { OnOk result (string_bytes text.new ≡ string_bytes text.old ++ cycle_move
        (name_by naming size.columns size.rows) (colour, point)) }
{
    text.push_str(" ")?;
    text.push_str(colour_word(colour))?;
    text.push_str(":")?;
    write_point_name(alloc, text, naming, size, point)
}

/// Appends the moves of a cycle.
#[tactic(auto, using(std::proofs::Common::append_assoc))]
fn write_moves(
    alloc: Global,
    text: &mut String,
    naming: Naming,
    size: Size,
    moves: &[(Colour, Point)],
) -> Result<(), AllocError>
    requires { All (λ m. m.1 < size.columns * size.rows) moves.now }
    ensures { OnOk result (string_bytes text.new ≡ string_bytes text.old ++ flat_map
        (cycle_move (name_by naming size.columns size.rows)) moves.now) }
{
    'writing: for step in moves {
        write_move(alloc, text, naming, size, step.0, step.1)?;
    }
    Ok(())
}

/// The words on a cycle of moves that comes back to the position after `back` of them.
#[tactic(auto, using(std::proofs::Common::append_assoc), unfolding(crate::specs::FaultWords::cycle_words))]
pub fn cycle_words(
    alloc: Global,
    naming: Naming,
    size: Size,
    lowest: Point,
    back: usize,
    moves: &[(Colour, Point)],
) -> Result<String, AllocError>
    requires lowest { lowest < size.columns * size.rows }
    requires moves { All (λ m. m.1 < size.columns * size.rows) moves.now }
    ensures { IfOk result (λ text. string_bytes text
        ≡ cycle_words (name_by naming size.columns size.rows) lowest back moves.now) }
{
    let mut text = String::new(alloc);
    text.push_str("cycle ")?;
    write_point_name(alloc, &mut text, naming, size, lowest)?;
    write!(text, " {back}")?;
    write_moves(alloc, &mut text, naming, size, moves)?;
    Ok(text)
}

/// The words on a region with a value that has no form within the limit.
#[tactic(auto, using(std::proofs::Common::append_assoc), unfolding(crate::specs::FaultWords::form_words))]
pub fn form_words(
    alloc: Global,
    naming: Naming,
    size: Size,
    lowest: Point,
) -> Result<String, AllocError>
    requires { lowest < size.columns * size.rows }
    ensures { IfOk result (λ text. string_bytes text
        ≡ form_words (name_by naming size.columns size.rows) lowest) }
{
    let mut text = String::new(alloc);
    text.push_str("form ")?;
    write_point_name(alloc, &mut text, naming, size, lowest)?;
    Ok(text)
}

/// The words on a fault of a position whose board has the size, or the want of memory that it is.
pub fn fault_words(
    alloc: Global,
    naming: Naming,
    size: Size,
    limits: &Limits,
    fault: SolveError,
) -> Result<String, AllocError>
    requires { NamesPoints (size.columns * size.rows) fault }
    ensures { IfOk result (λ text. AreFaultWords (name_by naming size.columns size.rows)
        limits.now fault (string_bytes text)) }
{
    match fault {
        SolveError::Points(lowest, points) => points_words(alloc, naming, size, lowest, points),
        SolveError::Positions(lowest) => {
            positions_words(alloc, naming, size, lowest, limits.positions())
        }
        SolveError::Cycle(lowest, moves, back) => {
            cycle_words(alloc, naming, size, lowest, back, moves.as_slice())
        }
        SolveError::Form(lowest) => form_words(alloc, naming, size, lowest),
        SolveError::Memory(cause) => Err(cause),
    }
}
