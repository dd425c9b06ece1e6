//! Questions about the position of a file, each of which is answered by one text.

ghost use Rattle.std.specs.Prelude.{◌≡◌, ◌≤◌, true, false, IfOk};
ghost use Rattle.desk_io.specs.Desk.{IsLater, desk, input_of, known, outside};
ghost use Rattle.desk_io.specs.Outside.{ended};
ghost use Rattle.whole_rules.specs.Opening.{MayTax};
ghost use Rattle.endgame_questions.specs.File.{ReadsFile, dash, told_of};
ghost use Rattle.endgame_questions.specs.Question.{AnswersQuestion, AreStepsFor, AreToldSteps, IsAnswer, IsPositionAnswer};
ghost use Rattle.endgame_questions.specs.Found.{HasRanges};

use crate::cycles::solve_with_cycles;
use crate::ending::finish;
use crate::finding::find_position;
use crate::question::{Found, Inquiry, Report};
use crate::solving::solve;
use crate::status::Status;
use crate::terms::GameTerms;
use desk_io::{Shelf, Sink, Source};
use gd_words::Question;
use local_play::Steps;
use report::{Terms, board_text, safe_text};
use sgf_go::{Settings, Setup};
use std::alloc::{AllocError, Global};
use std::sync::ledger::Ledger;

/// What a position has beside its board.
fn beside_board(setup: &Setup) -> Terms
    ensures { result ≡ record {
      side = setup.now.side;
      komi_halves = setup.now.komi_halves;
      black_prisoners = setup.now.black_prisoners;
      white_prisoners = setup.now.white_prisoners;
    } }
{
    Terms {
        side: setup.side(),
        komi_halves: setup.komi_halves(),
        black_prisoners: setup.black_prisoners(),
        white_prisoners: setup.white_prisoners(),
    }
}

/// The report on a question about a position, on these terms.
fn report_on_position<L: Ledger>(
    alloc: Global,
    question: Question,
    terms: &GameTerms,
    setup: &Setup,
    steps: &mut Steps<L>,
) -> Result<Report, AllocError>
    requires taxed { MayTax terms.now.tax setup.now.board }
    ensures answer { IfOk result (λ report. IsPositionAnswer
        question terms.now setup.now report.status report.text) }
    ensures steps { AreStepsFor question terms.now.limits setup.now steps.old steps.new }
{
    match question {
        Question::Safe => Ok(Report {
            status: Status::Done,
            text: safe_text(alloc, setup.board())?,
        }),
        Question::Board => Ok(Report {
            status: Status::Done,
            text: board_text(alloc, setup.board(), beside_board(setup))?,
        }),
        Question::Solve | Question::Values | Question::Margin | Question::Moves | Question::Line =>
            solve(alloc, question, setup, terms, steps),
        Question::WithCycles(asked) => solve_with_cycles(alloc, asked, setup, terms, steps),
    }
}

/// The report on the file of a word.
fn answer<H: Shelf, S: Source, L: Ledger>(
    alloc: Global,
    inquiry: &Inquiry<'_>,
    settings: &Settings,
    shelf: &mut H,
    lines: &mut S,
    steps: &mut Steps<L>,
) -> Result<Report, AllocError>
    requires ranges { HasRanges settings.now }
    requires untaxed { inquiry.now.terms.tax ≡ true → settings.now.territory ≡ false }
    ensures answer { IfOk result (λ report. IsAnswer inquiry.now.question inquiry.now.terms
        settings.now inquiry.now.word.now (input_of H.Shelf S.Source shelf.old lines.old)
        (input_of H.Shelf S.Source shelf.new lines.new) report.status report.text) }
    ensures steps { AreToldSteps inquiry.now.question inquiry.now.terms.limits
        (told_of (input_of H.Shelf S.Source shelf.old lines.old) inquiry.now.word.now)
        settings.now steps.old steps.new }
    ensures reads { ReadsFile H.Shelf S.Source inquiry.now.word.now
        shelf.old lines.old shelf.new lines.new }
    ensures at_end { IfOk result (λ report. report.status ≡ Status.Done
        → inquiry.now.word.now ≡ dash → S.left lines.new ≡ ended (S.left lines.old)) }
{
    match find_position(alloc, inquiry.word, settings, shelf, lines)? {
        Found::Position(setup) => {
            let report = report_on_position(
                alloc,
                inquiry.question,
                &inquiry.terms,
                &setup,
                steps,
            )?;
            Ok(report)
        }
        Found::Fault(report) => Ok(report),
    }
}

/// Answers a question about the file of a word, and writes the text.
pub fn run_question<H: Shelf, S: Source, K: Sink, L: Ledger>(
    alloc: Global,
    inquiry: &Inquiry<'_>,
    settings: &Settings,
    shelf: &mut H,
    lines: &mut S,
    out: &mut K,
    steps: &mut Steps<L>,
) -> Status
    requires ranges { HasRanges settings.now }
    requires untaxed { inquiry.now.terms.tax ≡ true → settings.now.territory ≡ false }
    ensures ran { AnswersQuestion (outside H.Shelf S.Source K.Sink) inquiry.now.question
        inquiry.now.terms settings.now inquiry.now.word.now
        (desk shelf.old lines.old out.old) result (desk shelf.new lines.new out.new) }
    ensures later { IsLater
        (known (outside H.Shelf S.Source K.Sink) (desk shelf.old lines.old out.old))
        (known (outside H.Shelf S.Source K.Sink) (desk shelf.new lines.new out.new)) }
    ensures steps { AreToldSteps inquiry.now.question inquiry.now.terms.limits
        (told_of (input_of H.Shelf S.Source shelf.old lines.old) inquiry.now.word.now)
        settings.now steps.old steps.new }
{
    match answer(alloc, inquiry, settings, shelf, lines, steps) {
        Ok(report) => finish(out, report.status, report.text.as_slice()),
        Err(_) => Status::Memory,
    }
}
