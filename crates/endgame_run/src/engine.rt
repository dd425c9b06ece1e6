//! Sessions of the engine.

ghost use Rattle.std.specs.Prelude.{◌≤◌};
ghost use Rattle.desk_io.specs.Desk.{IsLater, desk, input_of, known, outside};
ghost use Rattle.endgame_run.specs.Engine.{AreSessionSteps, RunsEngine, board_rules, engine_rules};
ghost use Rattle.endgame_run.specs.inner.Top.{IsClosed};

use board_session::{BoardEngine, BoardLimits};
use desk_io::{Shelf, Sink, Source};
use endgame_questions::{Status, finish};
use gtp_engine::{Engine, EngineLimits, GtpEnd};
use local_play::Steps;
use std::alloc::Global;
use std::sync::ledger::Ledger;

/// Writes the line of a fault behind a session that ended so.
fn close<K: Sink>(end: GtpEnd, out: &mut K) -> Status
    ensures closed { IsClosed end (K.faults out.old) (K.faults out.new) (K.holds out.old)
        (K.holds out.new) result }
    ensures later_writes { K.faults out.old ≤ K.faults out.new }
{
    match end {
        GtpEnd::Quit | GtpEnd::InputEnded => Status::Done,
        GtpEnd::ReadFault => finish(out, Status::CannotRead, b"fault cannot read\n"),
        GtpEnd::WriteFault => Status::CannotWrite,
        GtpEnd::TooManyLines => finish(out, Status::TooManyLines, b"fault lines\n"),
        GtpEnd::Memory => Status::Memory,
    }
}

/// Answers the lines of the source by an engine within the limits, over the files of the shelf.
pub(crate) fn run_gtp<H: Shelf, S: Source, K: Sink, L: Ledger>(
    alloc: Global,
    limits: EngineLimits,
    shelf: &mut H,
    lines: &mut S,
    out: &mut K,
    steps: &mut Steps<L>,
) -> Status
    ensures ran { RunsEngine (outside H.Shelf S.Source K.Sink) (engine_rules limits)
        (desk shelf.old lines.old out.old) result (desk shelf.new lines.new out.new) }
    ensures steps { AreSessionSteps (engine_rules limits)
        (input_of H.Shelf S.Source shelf.old lines.old)
        (input_of H.Shelf S.Source shelf.new lines.new) steps.old steps.new }
    ensures later { IsLater
        (known (outside H.Shelf S.Source K.Sink) (desk shelf.old lines.old out.old))
        (known (outside H.Shelf S.Source K.Sink) (desk shelf.new lines.new out.new)) }
{
    let Ok(mut engine) = Engine::new(alloc, limits) else {
        return Status::Memory;
    };
    let end = engine.run(shelf, lines, out, steps);
    drop(engine);
    close(end, out)
}

/// Answers the lines of the source by an engine that keeps a board, within the limits, over the files of the shelf.
pub(crate) fn run_board<H: Shelf, S: Source, K: Sink, L: Ledger>(
    alloc: Global,
    limits: BoardLimits,
    shelf: &mut H,
    lines: &mut S,
    out: &mut K,
    steps: &mut Steps<L>,
) -> Status
    ensures ran { RunsEngine (outside H.Shelf S.Source K.Sink) (board_rules limits)
        (desk shelf.old lines.old out.old) result (desk shelf.new lines.new out.new) }
    ensures steps { AreSessionSteps (board_rules limits)
        (input_of H.Shelf S.Source shelf.old lines.old)
        (input_of H.Shelf S.Source shelf.new lines.new) steps.old steps.new }
    ensures later { IsLater
        (known (outside H.Shelf S.Source K.Sink) (desk shelf.old lines.old out.old))
        (known (outside H.Shelf S.Source K.Sink) (desk shelf.new lines.new out.new)) }
{
    let Ok(mut engine) = BoardEngine::new(alloc, limits) else {
        return Status::Memory;
    };
    let end = engine.run(shelf, lines, out, steps);
    drop(engine);
    close(end, out)
}
