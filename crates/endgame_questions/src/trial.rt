//! The boards of `trial`.

ghost use Rattle.std.specs.Prelude.{◌≡◌, ◌≤◌, IfOk};
ghost use Rattle.endgame_questions.specs.Trial.{AreTrialSteps, IsTrial, IsTrialAnswer, trial_limits};
ghost use Rattle.endgame_questions.specs.inner.Trial.{IsWantOfMemory};
ghost use Rattle.endgame_questions.specs.Written.{Reports};

use crate::ending::finish;
use crate::status::Status;
use desk_io::Sink;
use endgame_solver::{Limits, SolveError, Solved};
use game_text::Text;
use local_play::Steps;
use report::trial_text;
use std::alloc::{AllocError, Global};
use std::sync::ledger::Ledger;

/// The limits of each board.
fn trial_limits() -> Limits
    ensures { result ≡ trial_limits }
{
    match Limits::new(100_000, 500) {
        Some(limits) => limits,
        // The numbers are in range.
        None => unreachable!(),
    }
}

/// The refusal of memory that the fault is.
fn want_of_memory(fault: SolveError) -> AllocError
    requires { IsWantOfMemory fault }
{
    match fault {
        SolveError::Memory(cause) => cause,
        // The caller has told all other faults: they end the trial by a line of their own.
        SolveError::Points(_, _) => unreachable!(),
        SolveError::Positions(_) => unreachable!(),
        SolveError::Cycle(_, _, _) => unreachable!(),
        SolveError::Form(_) => unreachable!(),
    }
}

/// The text of the solved board that a number draws.
fn text_of<L: Ledger>(alloc: Global, number: u32, steps: &mut Steps<L>) -> Result<Text, AllocError>
    ensures text { IfOk result (IsTrial number) }
    ensures steps { AreTrialSteps number steps.old steps.new }
{
    let setup = board_gen::make(alloc, number)?;
    let limits = trial_limits();
    match Solved::begin(alloc, &setup, false, &limits, steps) {
        Ok(mut solved) => {
            let text = trial_text(alloc, number, &mut solved);
            drop(solved);
            text
        }
        Err(fault) => Err(want_of_memory(fault)),
    }
}

/// Solves the board that a number draws, and writes its text.
pub fn run_trial<K: Sink, L: Ledger>(
    alloc: Global,
    number: u32,
    out: &mut K,
    steps: &mut Steps<L>,
) -> Status
    ensures answered { Reports (IsTrialAnswer number)
        (K.faults out.old) (K.faults out.new) (K.holds out.old) (K.holds out.new) result }
    ensures steps { AreTrialSteps number steps.old steps.new }
    ensures later_writes { K.faults out.old ≤ K.faults out.new }
{
    match text_of(alloc, number, steps) {
        Ok(text) => finish(out, Status::Done, text.as_slice()),
        Err(_) => Status::Memory,
    }
}
