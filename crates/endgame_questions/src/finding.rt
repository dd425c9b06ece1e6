//! The position of a file.

ghost use Rattle.std.specs.Prelude.{◌≡◌, ◌≤◌, length, sum_by, IfOk};
ghost use Rattle.desk_io.specs.Desk.{input_of};
ghost use Rattle.desk_io.specs.Outside.{ended};
ghost use Rattle.go_play.specs.Setup.{Setup as Position};
ghost use Rattle.sgf_tree.specs.Reading.{line_text};
ghost use Rattle.endgame_questions.specs.File.{ReadsFile, dash};
ghost use Rattle.endgame_questions.specs.Found.{HasRanges, IsFoundInFile};
ghost use Rattle.endgame_questions.specs.inner.Found.{IsFileFound, IsLineFound};

use crate::faults::{setup_fault_text, tree_fault_text};
use crate::file::{FileError, read_file};
use crate::question::{Found, Report};
use crate::status::Status;
use desk_io::{Shelf, Source};
use game_text::Text;
use sgf_go::{FileFault, GoError, Settings, position};
use sgf_tree::{MOST_BYTES, SgfError, Tree};
use std::alloc::{AllocError, Global};

/// The position of the main line of a file.
fn find_on_line(alloc: Global, tree: &Tree, settings: &Settings) -> Result<Found, AllocError>
    requires nodes { length tree.now.line.items ≤ MOST_BYTES }
    requires properties { sum_by (λ n. length n.properties.items) tree.now.line.items ≤ MOST_BYTES }
    requires ranges { HasRanges settings.now }
    ensures { IfOk result (IsLineFound (line_text tree.now) settings.now) }
{
    match position(alloc, tree, settings) {
        Ok(setup) => Ok(Found::Position(setup)),
        Err(GoError::Fault(fault)) => Ok(Found::Fault(Report {
            status: Status::BadFile(FileFault::Setup(fault)),
            text: Text::from(setup_fault_text(alloc, tree, fault)?),
        })),
        Err(GoError::Memory(cause)) => Err(cause),
    }
}

/// The position of a file that was read to its end.
fn find_on(alloc: Global, file: &[u8], settings: &Settings) -> Result<Found, AllocError>
    requires short { length file.now ≤ MOST_BYTES }
    requires ranges { HasRanges settings.now }
    ensures { IfOk result (IsFileFound file.now settings.now) }
{
    match sgf_tree::read(alloc, file) {
        Ok(tree) => {
            let found = find_on_line(alloc, &tree, settings)?;
            Ok(found)
        }
        Err(SgfError::Fault(fault)) => Ok(Found::Fault(Report {
            status: Status::BadFile(FileFault::Tree(fault)),
            text: Text::from(tree_fault_text(alloc, fault)?),
        })),
        Err(SgfError::Memory(cause)) => Err(cause),
    }
}

/// The position of the file of a word.
pub fn find_position<H: Shelf, S: Source>(
    alloc: Global,
    word: &str,
    settings: &Settings,
    shelf: &mut H,
    lines: &mut S,
) -> Result<Found, AllocError>
    requires { HasRanges settings.now }
    ensures found { IfOk result (IsFoundInFile settings.now word.now
        (input_of H.Shelf S.Source shelf.old lines.old)
        (input_of H.Shelf S.Source shelf.new lines.new)) }
    ensures reads { ReadsFile H.Shelf S.Source word.now
        shelf.old lines.old shelf.new lines.new }
    ensures at_end { IfOk result (λ found. (setup : Position) → found ≡ Found.Position setup
        → word.now ≡ dash → S.left lines.new ≡ ended (S.left lines.old)) }
{
    match read_file(alloc, shelf, lines, word) {
        Ok(file) => {
            let found = find_on(alloc, &file, settings)?;
            Ok(found)
        }
        Err(FileError::CannotRead) => Ok(Found::Fault(Report {
            status: Status::CannotRead,
            text: Text::from(String::from_str(alloc, "fault cannot read\n")?),
        })),
        Err(FileError::TooLong) => Ok(Found::Fault(Report {
            status: Status::TooLong,
            text: Text::from(String::from_str(alloc, "fault too long\n")?),
        })),
        Err(FileError::Memory(cause)) => Err(cause),
    }
}
