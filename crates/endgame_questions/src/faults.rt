//! The lines of faults.

ghost use Rattle.std.specs.Prelude.{◌≡◌, ◌<◌, ◌*◌, IfOk, string_bytes, Err};
ghost use Rattle.go_grid.specs.Name.{point_name};
ghost use Rattle.board_words.specs.Words.{word_line};
ghost use Rattle.endgame_questions.specs.Texts.{fault_line, fault_line_at};
ghost use Rattle.endgame_questions.specs.Position.{IsPointFaultText, IsSetupFaultText, IsTreeFaultText};
ghost use Rattle.endgame_questions.specs.inner.Position.{IsOnLine};
ghost use Rattle.sgf_go.specs.Setup.{Gives};
ghost use Rattle.sgf_go.specs.declared.settings.Settings.{Settings};
ghost use Rattle.sgf_tree.specs.Reading.{line_text};

use board_words::write_point;
use go_grid::{Point, Size};
use sgf_go::{SetupFault, size_of_board};
use sgf_tree::{Tree, TreeFault};
use std::alloc::{AllocError, Global};

/// The line of a point with a fault.
pub(crate) fn point_text(
    alloc: Global,
    label: &str,
    size: Size,
    point: Point,
) -> Result<String, AllocError>
    requires { point < size.columns * size.rows }
    ensures { IfOk result (λ text. string_bytes text ≡ word_line label.now
        (point_name size.columns point)) }
{
    let mut text = String::new(alloc);
    write_point(&mut text, label, size, point)?;
    Ok(text)
}

/// A line on what is wrong with a file.
#[tactic(auto, unfolding(crate::specs::Texts::fault_line))]
fn fault_line(alloc: Global, what: &str) -> Result<String, AllocError>
    ensures { IfOk result (λ text. string_bytes text ≡ fault_line what.now) }
{
    format!(in alloc; "fault file {what}\n")
}

/// The same with a number behind it.
#[tactic(auto, unfolding(crate::specs::Texts::fault_line_at))]
fn fault_line_at(alloc: Global, what: &str, number: u32) -> Result<String, AllocError>
    ensures { IfOk result (λ text. string_bytes text ≡ fault_line_at what.now number) }
{
    format!(in alloc; "fault file {what} {number}\n")
}

/// The line of a point with a fault, named by the size of the record's board.
fn point_fault_text(
    alloc: Global,
    tree: &Tree,
    label: &str,
    point: Point,
) -> Result<String, AllocError>
    requires { IsOnLine (line_text tree.now) point }
    ensures { IfOk result (λ text. IsPointFaultText (line_text tree.now) label.now point
        (string_bytes text)) }
{
    let Some(size) = size_of_board(tree) else {
        // A point was named by the size of the same record.
        unreachable!()
    };
    let text = point_text(alloc, label, size, point)?;
    Ok(text)
}

/// The line of a fault of a file's tree.
pub(crate) fn tree_fault_text(alloc: Global, fault: TreeFault) -> Result<String, AllocError>
    ensures { IfOk result (λ text. IsTreeFaultText fault (string_bytes text)) }
{
    match fault {
        TreeFault::NoTree => fault_line(alloc, "no tree"),
        TreeFault::BadByte(at) => fault_line_at(alloc, "bad byte", at),
        TreeFault::CutShort => fault_line(alloc, "cut short"),
        TreeFault::TooDeep => fault_line(alloc, "too deep"),
    }
}

/// The line of a fault of the position of a record, which the settings give.
pub(crate) fn setup_fault_text(
    alloc: Global,
    tree: &Tree,
    fault: SetupFault,
) -> Result<String, AllocError>
    requires { (settings : Settings) × Gives settings (line_text tree.now) (Err fault) }
    ensures { IfOk result (λ text. IsSetupFaultText (line_text tree.now) fault
        (string_bytes text)) }
{
    match fault {
        SetupFault::WrongGame => fault_line(alloc, "wrong game"),
        SetupFault::BadSize => fault_line(alloc, "bad size"),
        SetupFault::BadKomi => fault_line(alloc, "bad komi"),
        SetupFault::BadPoint(node) => fault_line_at(alloc, "bad point at node", node),
        SetupFault::BadSide => fault_line(alloc, "bad side"),
        SetupFault::Occupied(node) => fault_line_at(alloc, "occupied at node", node),
        SetupFault::Suicide(node) => fault_line_at(alloc, "suicide at node", node),
        SetupFault::MarkedTwice(point) => {
            point_fault_text(alloc, tree, "fault file marked twice at", point)
        }
        SetupFault::NoLiberty(point) => {
            point_fault_text(alloc, tree, "fault file no liberty at", point)
        }
    }
}
