//! Positions whose regions are solved.

ghost use Rattle.std.specs.Prelude.{◌≡◌, ◌<◌, ◌≤◌, ◌+◌, ◌*◌, ◌^◌, List, IfOk};
ghost use Rattle.go_grid.specs.Region.{Region};
ghost use Rattle.whole_rules.specs.Opening.{MayTax};
ghost use Rattle.endgame_solver.specs.Faults.{most_steps};
ghost use Rattle.region_cut.specs.Cut.{AreRegionsOfPlay};
ghost use Rattle.report.specs.Values.{IsRefusal};
ghost use Rattle.endgame_questions.specs.Refusal.{HasStatus, form_line, refusal_line};
ghost use Rattle.endgame_questions.specs.inner.Refusal.{NamesRegion};
ghost use Rattle.fault_words.specs.NamedPoints.{NamesPoints};
ghost use Rattle.gd_words.specs.Task.{NeedsRegions, TakesNoCycles};
ghost use Rattle.endgame_questions.specs.inner.Reports.{IsGameReport, IsValuesReport};
ghost use Rattle.endgame_questions.specs.Question.{IsPositionAnswer};

use crate::faults::point_text;
use crate::question::Report;
use crate::refusal::{cycle_text, points_text, positions_text};
use crate::status::Status;
use crate::terms::GameTerms;
use endgame_solver::{Limits, SolveError, Solved};
use fault_words::Naming;
use game_text::Text;
use gd_words::Question;
use go_grid::Size;
use local_play::Steps;
use report::{ValuesError, line_text, margin_text, moves_text, solve_text, values_text};
use sgf_go::Setup;
use std::alloc::{AllocError, Global};
use std::sync::ledger::Ledger;

/// The report on a fault of the regions.
pub fn refused(
    alloc: Global,
    size: Size,
    limits: &Limits,
    fault: SolveError,
) -> Result<Report, AllocError>
    requires { NamesPoints (size.columns * size.rows) fault }
    ensures status { IfOk result (λ report. HasStatus fault report.status) }
    ensures text { IfOk result
        (λ report. report.text ≡ refusal_line limits.now size.columns fault) }
{
    match fault {
        SolveError::Points(lowest, points) => Ok(Report {
            status: Status::RegionLimit,
            text: Text::from(points_text(alloc, size, lowest, points)?),
        }),
        SolveError::Positions(lowest) => Ok(Report {
            status: Status::RegionLimit,
            text: Text::from(positions_text(alloc, size, lowest, limits.positions())?),
        }),
        SolveError::Cycle(lowest, moves, back) => Ok(Report {
            status: Status::Cycle,
            text: Text::from(cycle_text(alloc, size, lowest, back, moves.as_slice())?),
        }),
        SolveError::Form(lowest) => Ok(Report {
            status: Status::FormLimit,
            text: Text::from(point_text(alloc, "fault form", size, lowest)?),
        }),
        SolveError::Memory(cause) => Err(cause),
    }
}

/// The report on values that aren't shown.
pub(crate) fn unshown(alloc: Global, size: Size, fault: ValuesError) -> Result<Report, AllocError>
    requires { IsRefusal (λ p. p < size.columns * size.rows) fault }
    ensures status { IfOk result (λ report. report.status ≡ Status.FormLimit) }
    ensures text { IfOk result (λ report. IsRefusal
        (λ p. report.text ≡ form_line size.columns p) fault) }
    ensures named { IfOk result (λ _. NamesRegion fault) }
{
    match fault {
        ValuesError::Form(lowest) => Ok(Report {
            status: Status::FormLimit,
            text: Text::from(point_text(alloc, "fault form", size, lowest)?),
        }),
        ValuesError::Memory(cause) => Err(cause),
    }
}

/// The report on the values of a solved game.
fn report_values(alloc: Global, solved: &Solved) -> Result<Report, AllocError>
    ensures { IfOk result (λ report. IsValuesReport solved.now report.status report.text) }
{
    let size = solved.whole().board().size();
    match values_text(alloc, solved) {
        Ok(text) => Ok(Report {
            status: Status::Done,
            text,
        }),
        Err(fault) => {
            let report = unshown(alloc, size, fault)?;
            Ok(report)
        }
    }
}

/// The report on a question about a solved game that opens with this komi in half-points.
fn report_game(
    alloc: Global,
    question: Question,
    solved: &mut Solved,
    komi_halves: i64,
) -> Result<Report, AllocError>
    requires needs { NeedsRegions question }
    requires plain { TakesNoCycles question }
    ensures { IfOk result (λ report. IsGameReport
        question komi_halves solved.old report.status report.text) }
{
    let text = match question {
        Question::Values => return report_values(alloc, solved),
        Question::Solve => solve_text(alloc, solved)?,
        Question::Margin => margin_text(alloc, solved, komi_halves)?,
        Question::Moves => moves_text(alloc, Naming::Letters, solved, komi_halves)?,
        Question::Line => line_text(alloc, Naming::Letters, solved, komi_halves)?,
        // Two need no regions, and the last is asked of games with cycles.
        Question::Safe | Question::Board | Question::WithCycles(_) => unreachable!(),
    };
    Ok(Report {
        status: Status::Done,
        text,
    })
}

/// The report on a question about a position that is solved for it on these terms.
pub(crate) fn solve<L: Ledger>(
    alloc: Global,
    question: Question,
    setup: &Setup,
    terms: &GameTerms,
    steps: &mut Steps<L>,
) -> Result<Report, AllocError>
    requires regions { NeedsRegions question }
    requires plain { TakesNoCycles question }
    requires taxed { MayTax terms.now.tax setup.now.board }
    ensures answer { IfOk result (λ report. IsPositionAnswer
        question terms.now setup.now report.status report.text) }
    ensures steps { (regions : List Region) → AreRegionsOfPlay setup.now.board regions
        → steps.new ≤ steps.old + most_steps terms.now.limits regions }
{
    match Solved::begin(alloc, setup, terms.tax, &terms.limits, steps) {
        Ok(mut solved) => {
            let report = report_game(alloc, question, &mut solved, setup.komi_halves());
            drop(solved);
            report
        }
        Err(fault) => {
            let report = refused(alloc, setup.board().size(), &terms.limits, fault)?;
            Ok(report)
        }
    }
}
