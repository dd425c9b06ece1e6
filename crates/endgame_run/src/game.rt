//! Games of files.

ghost use Rattle.std.specs.Prelude.{◌≡◌, ◌≢◌, ◌≤◌, [], true, false, IfOk};
ghost use Rattle.desk_io.specs.Desk.{IsLater, desk, input_of, known, outside};
ghost use Rattle.engine_player.specs.Room.{CanTake};
ghost use Rattle.endgame_questions.specs.File.{ReadsFile, TakesAtMost, dash, most_of_game, told_of};
ghost use Rattle.endgame_run.specs.Game.{IsPlayRun, PlaysFile, question_of_game};
ghost use Rattle.endgame_questions.specs.Question.{AreToldSteps};
ghost use Rattle.endgame_questions.specs.Found.{HasRanges};
ghost use Rattle.endgame_run.specs.inner.Top.{IsOpened};

use crate::opening::begin;
use crate::question::{Match, Opened};
use desk_io::{Shelf, Sink, Source};
use endgame_questions::{Found, Status, find_position, finish};
use local_play::Steps;
use play_session::{MOST_TURNS, Session, SessionEnd};
use sgf_go::Settings;
use std::alloc::{AllocError, Global};
use std::sync::ledger::Ledger;

/// The game of the file of a word.
fn open_game<H: Shelf, S: Source, L: Ledger>(
    alloc: Global,
    game: &Match<'_>,
    settings: &Settings,
    shelf: &mut H,
    lines: &mut S,
    steps: &mut Steps<L>,
) -> Result<Opened, AllocError>
    requires ranges { HasRanges settings.now }
    requires untaxed { game.now.terms.tax ≡ true → settings.now.territory ≡ false }
    ensures opened { IfOk result (IsOpened game.now.terms game.now.cycles game.now.engine
        settings.now game.now.word.now (input_of H.Shelf S.Source shelf.old lines.old)
        (input_of H.Shelf S.Source shelf.new lines.new)) }
    ensures steps { AreToldSteps (question_of_game game.now.cycles) game.now.terms.limits
        (told_of (input_of H.Shelf S.Source shelf.old lines.old) game.now.word.now)
        settings.now steps.old steps.new }
    ensures reads { ReadsFile H.Shelf S.Source game.now.word.now
        shelf.old lines.old shelf.new lines.new }
{
    match find_position(alloc, game.word, settings, shelf, lines)? {
        Found::Position(setup) => {
            let opened = begin(alloc, &setup, game, steps)?;
            Ok(opened)
        }
        Found::Fault(report) => Ok(Opened::Fault(report)),
    }
}

/// Plays a session over the lines, and writes the line of a fault behind it.
fn play<S: Source, K: Sink>(session: &mut Session, lines: &mut S, out: &mut K) -> Status
    requires fresh { session.old.held ≡ [] }
    requires room { CanTake MOST_TURNS session.old.game }
    ensures takes { TakesAtMost most_of_game (S.left lines.old) (S.left lines.new) }
    ensures later_reads { S.faults lines.old ≤ S.faults lines.new }
    ensures later_writes { K.faults out.old ≤ K.faults out.new }
    ensures played { IsPlayRun session.old.engine session.old.game (S.left lines.old)
        (S.faults lines.old) (S.faults lines.new)
        (K.faults out.old) (K.faults out.new) (K.holds out.old) (K.holds out.new) result }
{
    match session.run(lines, out) {
        SessionEnd::Won | SessionEnd::Lost | SessionEnd::InputEnded => Status::Done,
        SessionEnd::ReadFault => finish(out, Status::CannotRead, b"fault cannot read\n"),
        SessionEnd::WriteFault => Status::CannotWrite,
        SessionEnd::TooManyLines => finish(out, Status::TooManyLines, b"fault lines\n"),
    }
}

/// Plays the game of the file of a word, which isn't that of the source, over the lines of the source.
pub(crate) fn run_game<H: Shelf, S: Source, K: Sink, L: Ledger>(
    alloc: Global,
    game: &Match<'_>,
    settings: &Settings,
    shelf: &mut H,
    lines: &mut S,
    out: &mut K,
    steps: &mut Steps<L>,
) -> Status
    requires ranges { HasRanges settings.now }
    requires untaxed { game.now.terms.tax ≡ true → settings.now.territory ≡ false }
    requires apart { game.now.word.now ≢ dash }
    ensures ran { PlaysFile (outside H.Shelf S.Source K.Sink) game.now.terms game.now.cycles
        game.now.engine settings.now game.now.word.now
        (desk shelf.old lines.old out.old) result (desk shelf.new lines.new out.new) }
    ensures later { IsLater
        (known (outside H.Shelf S.Source K.Sink) (desk shelf.old lines.old out.old))
        (known (outside H.Shelf S.Source K.Sink) (desk shelf.new lines.new out.new)) }
    ensures steps { AreToldSteps (question_of_game game.now.cycles) game.now.terms.limits
        (told_of (input_of H.Shelf S.Source shelf.old lines.old) game.now.word.now)
        settings.now steps.old steps.new }
{
    match open_game(alloc, game, settings, shelf, lines, steps) {
        Ok(Opened::Game(mut session)) => {
            let status = play(&mut session, lines, out);
            drop(session);
            status
        }
        Ok(Opened::Fault(report)) => finish(out, report.status, report.text.as_slice()),
        Err(_) => Status::Memory,
    }
}
