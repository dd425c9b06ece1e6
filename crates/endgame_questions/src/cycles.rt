//! Positions whose regions may have cycles.

ghost use Rattle.std.specs.Prelude.{◌≡◌, ◌<◌, ◌≤◌, ◌+◌, ◌*◌, ℕ, List, IfOk};
ghost use Rattle.go_grid.specs.Region.{Region};
ghost use Rattle.whole_rules.specs.Opening.{MayTax};
ghost use Rattle.endgame_solver.specs.Faults.{most_steps};
ghost use Rattle.region_cut.specs.Cut.{AreRegionsOfPlay};
ghost use Rattle.gd_words.specs.declared.job.Question.TheVariants.{WithCycles};
ghost use Rattle.endgame_questions.specs.Cycles.{HasCycleStatus, NamesCyclePoints, cycle_refusal_line, most_captures};
ghost use Rattle.endgame_questions.specs.inner.Reports.{IsCycleReport, IsCycleValuesReport};
ghost use Rattle.endgame_questions.specs.Question.{IsPositionAnswer};

use crate::faults::point_text;
use crate::question::Report;
use crate::refusal::{points_text, positions_text};
use crate::solving::unshown;
use crate::status::Status;
use crate::terms::GameTerms;
use cycle_report::{cycle_margin_text, cycle_moves_text, cycle_solve_text, cycle_values_text};
use cycle_solver::{CycleError, CycleGame, MOST_CAPTURES};
use endgame_solver::Limits;
use fault_words::Naming;
use game_text::Text;
use gd_words::CycleQuestion;
use go_grid::Size;
use local_play::Steps;
use sgf_go::Setup;
use std::alloc::{AllocError, Global};
use std::sync::ledger::Ledger;

/// The report on a fault of the regions.
pub fn refused_with_cycles(
    alloc: Global,
    size: Size,
    limits: &Limits,
    fault: CycleError,
) -> Result<Report, AllocError>
    requires { NamesCyclePoints (size.columns * size.rows) fault }
    ensures status { IfOk result (λ report. HasCycleStatus fault report.status) }
    ensures text { IfOk result
        (λ report. report.text ≡ cycle_refusal_line limits.now size.columns fault) }
{
    match fault {
        CycleError::Points(lowest, points) => Ok(Report {
            status: Status::RegionLimit,
            text: Text::from(points_text(alloc, size, lowest, points)?),
        }),
        CycleError::Positions(lowest) => Ok(Report {
            status: Status::RegionLimit,
            text: Text::from(positions_text(alloc, size, lowest, limits.positions())?),
        }),
        CycleError::Form(lowest) => Ok(Report {
            status: Status::FormLimit,
            text: Text::from(point_text(alloc, "fault form", size, lowest)?),
        }),
        CycleError::Captures(lowest) => Ok(Report {
            status: Status::CaptureLimit,
            text: Text::from(point_text(alloc, "fault captures", size, lowest)?),
        }),
        CycleError::Memory(cause) => Err(cause),
    }
}

/// The report on the values of a game with cycles.
fn report_values(alloc: Global, game: &CycleGame) -> Result<Report, AllocError>
    ensures { IfOk result (λ report. IsCycleValuesReport game.now report.status report.text) }
{
    let size = game.whole().board().size();
    match cycle_values_text(alloc, game) {
        Ok(text) => Ok(Report {
            status: Status::Done,
            text,
        }),
        Err(fault) => {
            let report = unshown(alloc, size, fault)?;
            Ok(report)
        }
    }
}

/// The report on a question about a game with cycles that opens with this komi in half-points.
fn report_game(
    alloc: Global,
    question: CycleQuestion,
    game: &mut CycleGame,
    komi_halves: i64,
) -> Result<Report, AllocError>
    ensures { IfOk result (λ report. IsCycleReport
        question komi_halves game.old report.status report.text) }
{
    let text = match question {
        CycleQuestion::Values => return report_values(alloc, game),
        CycleQuestion::Solve => cycle_solve_text(alloc, game)?,
        CycleQuestion::Margin => cycle_margin_text(alloc, game, komi_halves)?,
        CycleQuestion::Moves => cycle_moves_text(alloc, Naming::Letters, game, komi_halves)?,
    };
    Ok(Report {
        status: Status::Done,
        text,
    })
}

/// The report on a question about a position whose regions are steady for it, on these terms.
pub(crate) fn solve_with_cycles<L: Ledger>(
    alloc: Global,
    question: CycleQuestion,
    setup: &Setup,
    terms: &GameTerms,
    steps: &mut Steps<L>,
) -> Result<Report, AllocError>
    requires taxed { MayTax terms.now.tax setup.now.board }
    ensures answer { IfOk result (λ report. IsPositionAnswer
        (WithCycles question) terms.now setup.now report.status report.text) }
    ensures steps { (regions : List Region) → AreRegionsOfPlay setup.now.board regions
        → steps.new ≤ steps.old + most_steps terms.now.limits regions }
{
    match CycleGame::begin(alloc, setup, terms.tax, &terms.limits, MOST_CAPTURES, steps) {
        Ok(mut game) => {
            let report = report_game(alloc, question, &mut game, setup.komi_halves());
            drop(game);
            report
        }
        Err(fault) => {
            let report = refused_with_cycles(alloc, setup.board().size(), &terms.limits, fault)?;
            Ok(report)
        }
    }
}
