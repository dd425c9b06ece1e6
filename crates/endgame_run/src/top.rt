//! The top call.

ghost use Rattle.std.specs.Prelude.{◌≡◌, ℕ, List};
ghost use Rattle.desk_io.specs.Desk.{IsLater, desk, input_of, known, outside};
ghost use Rattle.gd_words.specs.Bounds.{IsInRanges};
ghost use Rattle.gd_words.specs.Job.{IsJob};
ghost use Rattle.gd_words.specs.Task.Task.{gtp};
ghost use Rattle.gd_words.specs.Viewed.{texts, viewed};
ghost use Rattle.endgame_run.specs.Limits.{engine_limits, limits_of, terms_of};
ghost use Rattle.endgame_run.specs.Run.{AreSteps, AreTaskSteps, Runs, RunsWords};
ghost use Rattle.endgame_run.specs.Solve.{AskToSolve, WritesMove, WritesWinner};
ghost use Rattle.endgame_run.specs.inner.Top.{IsAsked};

use crate::engine::{run_board, run_gtp};
use crate::game::run_game;
use crate::question::{Asked, Match};
use board_session::BoardLimits;
use desk_io::{Shelf, Sink, Source};
use endgame_questions::{
    GameTerms, Inquiry, Line, Status, finish, run_calc, run_question, run_trial,
};
use endgame_solver::Limits;
use gd_words::{Command, Job, Question};
use gtp_engine::EngineLimits;
use local_play::Steps;
use std::alloc::Global;
use std::sync::ledger::Ledger;

/// The limits of a job.
fn limits(job: &Job<'_>) -> Limits
    requires { IsInRanges (viewed job.now) }
    ensures { result ≡ limits_of (viewed job.now) }
{
    match Limits::new(job.positions, job.parts) {
        Some(limits) => limits,
        // The numbers of a job are in range.
        None => unreachable!(),
    }
}

/// The limits of a job, and whether there is a tax.
fn terms(job: &Job<'_>) -> GameTerms
    requires { IsInRanges (viewed job.now) }
    ensures { result ≡ terms_of (viewed job.now) }
{
    GameTerms {
        limits: limits(job),
        tax: job.tax,
    }
}

/// The limits of an engine, and whether points are declared.
fn limits_of_engine(job: &Job<'_>) -> EngineLimits
    requires { IsInRanges (viewed job.now) }
    ensures { result ≡ engine_limits (viewed job.now) }
{
    EngineLimits {
        game: limits(job),
        territory: job.settings.territory,
        cycles: job.cycles,
    }
}

/// The limits of an engine that keeps a board.
fn limits_on_board(limits: EngineLimits) -> BoardLimits
    ensures { result ≡ record {
      game = limits.game;
      territory = limits.territory;
      cycles = limits.cycles;
    } }
{
    BoardLimits {
        game: limits.game,
        territory: limits.territory,
        cycles: limits.cycles,
    }
}

/// The engine of a job.
fn engine_asked<'a>(job: &Job<'a>) -> Asked<'a>
    requires bounds { IsInRanges (viewed job.now) }
    requires engine { (viewed job.now).task ≡ gtp }
    ensures { IsAsked (viewed job.now) result }
{
    let limits = limits_of_engine(job);
    if job.keep_board {
        return Asked::BoardGtp(limits_on_board(limits));
    }
    Asked::Gtp(limits)
}

/// A question about the file of a word, on the terms of a job.
fn inquiry<'a>(job: &Job<'_>, question: Question, word: &'a str) -> Inquiry<'a>
    requires { IsInRanges (viewed job.now) }
    ensures question { result.question ≡ question }
    ensures terms { result.terms ≡ terms_of (viewed job.now) }
    ensures word { result.word.now ≡ word.now }
{
    Inquiry {
        question,
        terms: terms(job),
        word,
    }
}

/// What a job asks for.
fn asked<'a>(job: &Job<'a>) -> Asked<'a>
    requires { IsInRanges (viewed job.now) }
    ensures { IsAsked (viewed job.now) result }
{
    match job.command {
        Command::Solve(word) => Asked::Answer(inquiry(job, Question::Solve, word)),
        Command::Values(word) => Asked::Answer(inquiry(job, Question::Values, word)),
        Command::Safe(word) => Asked::Answer(inquiry(job, Question::Safe, word)),
        Command::Board(word) => Asked::Answer(inquiry(job, Question::Board, word)),
        Command::Margin(word) => Asked::Answer(inquiry(job, Question::Margin, word)),
        Command::Moves(word) => Asked::Answer(inquiry(job, Question::Moves, word)),
        Command::Line(word) => Asked::Answer(inquiry(job, Question::Line, word)),
        Command::WithCycles(question, word) => {
            Asked::Answer(inquiry(job, Question::WithCycles(question), word))
        }
        Command::Play(word) => Asked::Game(Match {
            terms: terms(job),
            cycles: job.cycles,
            engine: job.engine,
            word,
        }),
        Command::Trial(number) => Asked::Trial(number),
        Command::Calc(expression) => Asked::Calc(Line {
            expression,
            parts: job.parts,
        }),
        Command::Gtp => engine_asked(job),
    }
}

/// Does what a job asks for, and counts the positions of regions that are expanded.
fn run_job<H: Shelf, S: Source, K: Sink, L: Ledger>(
    alloc: Global,
    job: &Job<'_>,
    shelf: &mut H,
    lines: &mut S,
    out: &mut K,
    steps: &mut Steps<L>,
) -> Status
    requires bounds { IsInRanges (viewed job.now) }
    requires said { (words : List (List ℕ)) × IsJob words (viewed job.now) }
    ensures ran { Runs (outside H.Shelf S.Source K.Sink) (viewed job.now)
        (desk shelf.old lines.old out.old) result (desk shelf.new lines.new out.new) }
    ensures later { IsLater
        (known (outside H.Shelf S.Source K.Sink) (desk shelf.old lines.old out.old))
        (known (outside H.Shelf S.Source K.Sink) (desk shelf.new lines.new out.new)) }
    ensures steps { AreTaskSteps (viewed job.now).task (viewed job.now)
        (input_of H.Shelf S.Source shelf.old lines.old)
        (input_of H.Shelf S.Source shelf.new lines.new) steps.old steps.new }
{
    match asked(job) {
        Asked::Answer(inquiry) => {
            run_question(alloc, &inquiry, &job.settings, shelf, lines, out, steps)
        }
        Asked::Game(game) => run_game(alloc, &game, &job.settings, shelf, lines, out, steps),
        Asked::Trial(number) => run_trial(alloc, number, out, steps),
        Asked::Calc(line) => run_calc(alloc, &line, out),
        Asked::Gtp(limits) => run_gtp(alloc, limits, shelf, lines, out, steps),
        Asked::BoardGtp(limits) => run_board(alloc, limits, shelf, lines, out, steps),
    }
}

/// Does what the words say, and counts the positions of regions that are expanded. The texts, the statuses and what is read are those
/// that the command's relation gives; where `solve` is done, its two lines tell what plain recursion over whole boards tells.
pub fn run<H: Shelf, S: Source, K: Sink, L: Ledger>(
    alloc: Global,
    words: &[&str],
    shelf: &mut H,
    lines: &mut S,
    out: &mut K,
    steps: &mut Steps<L>,
) -> Status
    ensures ran { RunsWords (outside H.Shelf S.Source K.Sink) (texts words.now)
        (desk shelf.old lines.old out.old) result (desk shelf.new lines.new out.new) }
    ensures later { IsLater
        (known (outside H.Shelf S.Source K.Sink) (desk shelf.old lines.old out.old))
        (known (outside H.Shelf S.Source K.Sink) (desk shelf.new lines.new out.new)) }
    ensures winner { result ≡ Status.Done → AskToSolve (texts words.now)
        → WritesWinner (texts words.now)
        (known (outside H.Shelf S.Source K.Sink) (desk shelf.old lines.old out.old))
        (known (outside H.Shelf S.Source K.Sink) (desk shelf.new lines.new out.new)) }
    ensures first_winning_move { result ≡ Status.Done → AskToSolve (texts words.now)
        → WritesMove (texts words.now)
        (known (outside H.Shelf S.Source K.Sink) (desk shelf.old lines.old out.old))
        (known (outside H.Shelf S.Source K.Sink) (desk shelf.new lines.new out.new)) }
    ensures steps { AreSteps (texts words.now)
        (input_of H.Shelf S.Source shelf.old lines.old)
        (input_of H.Shelf S.Source shelf.new lines.new) steps.old steps.new }
{
    let Ok(job) = gd_words::read(words) else {
        return finish(out, Status::Usage, b"fault usage\n");
    };
    run_job(alloc, &job, shelf, lines, out, steps)
}
