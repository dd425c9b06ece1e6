//! The answers of `calc`.

ghost use Rattle.std.specs.Prelude.{◌≡◌, ◌≤◌, IfOk, string_bytes};
ghost use Rattle.endgame_questions.specs.Calc.{IsCalc, expression_fault, expression_line, expression_line_at};
ghost use Rattle.endgame_questions.specs.Written.{Reports};

use crate::ending::finish;
use crate::question::{Line, Report};
use crate::status::Status;
use desk_io::Sink;
use game_calc::{CalcError, CalcFault};
use game_text::Text;
use std::alloc::{AllocError, Global};

/// A line on what is wrong with an expression.
#[tactic(auto, unfolding(crate::specs::Calc::expression_line))]
fn expression_line(alloc: Global, what: &str) -> Result<String, AllocError>
    ensures { IfOk result (λ text. string_bytes text ≡ expression_line what.now) }
{
    format!(in alloc; "fault expression {what}\n")
}

/// The same with a place behind it.
#[tactic(auto, unfolding(crate::specs::Calc::expression_line_at))]
fn expression_line_at(alloc: Global, what: &str, place: usize) -> Result<String, AllocError>
    ensures { IfOk result (λ text. string_bytes text ≡ expression_line_at what.now place) }
{
    format!(in alloc; "fault expression {what} {place}\n")
}

/// The line of a fault of an expression.
fn expression_fault(alloc: Global, fault: CalcFault) -> Result<String, AllocError>
    ensures { IfOk result (λ text. string_bytes text ≡ expression_fault fault) }
{
    match fault {
        CalcFault::Byte(place) => expression_line_at(alloc, "bad byte", place),
        CalcFault::Number(place) => expression_line_at(alloc, "bad number", place),
        CalcFault::CutShort => expression_line(alloc, "cut short"),
        CalcFault::Deep => expression_line(alloc, "too deep"),
    }
}

/// The report on an expression.
fn calculate(alloc: Global, line: &Line<'_>) -> Result<Report, AllocError>
    ensures { IfOk result
        (λ report. IsCalc line.now.parts line.now.expression.now report.status report.text) }
{
    match game_calc::answer(alloc, line.expression.as_bytes(), line.parts) {
        Ok(text) => Ok(Report {
            status: Status::Done,
            text,
        }),
        Err(CalcError::Fault(fault)) => Ok(Report {
            status: Status::BadExpression(fault),
            text: Text::from(expression_fault(alloc, fault)?),
        }),
        Err(CalcError::Limit) => Ok(Report {
            status: Status::CalcLimit,
            text: Text::from(format!(in alloc; "fault calc limit\n")?),
        }),
        Err(CalcError::Memory(cause)) => Err(cause),
    }
}

/// Writes the answer to an expression, or why there is none.
pub fn run_calc<K: Sink>(alloc: Global, line: &Line<'_>, out: &mut K) -> Status
    ensures answered { Reports (IsCalc line.now.parts line.now.expression.now)
        (K.faults out.old) (K.faults out.new) (K.holds out.old) (K.holds out.new) result }
    ensures later_writes { K.faults out.old ≤ K.faults out.new }
{
    match calculate(alloc, line) {
        Ok(report) => finish(out, report.status, report.text.as_slice()),
        Err(_) => Status::Memory,
    }
}
