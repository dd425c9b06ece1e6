//! A file that is read to its end.

ghost use Rattle.std.specs.Prelude.{◌≡◌, ◌≤◌, ◌⊎◌, Some, None, IfOk, IsErrOf};
ghost use Rattle.desk_io.specs.Desk.{input_of};
ghost use Rattle.desk_io.specs.Files.Told.{absent};
ghost use Rattle.desk_io.specs.Files.{told_file, told_source};
ghost use Rattle.desk_io.specs.Outside.{Rose, ended};
ghost use Rattle.desk_io.specs.Files.{IsLonger, IsTold};
ghost use Rattle.sgf_go.specs.File.{HasFewBytes};
ghost use Rattle.endgame_questions.specs.File.{ReadsFile, TakesAtMost, count_of, dash, most_of_file, told_of};
ghost use Rattle.endgame_questions.specs.inner.File.{IsWhole};
ghost use Rattle.endgame_questions.specs.declared.file.FileError.TheVariants.{CannotRead, Memory};

use desk_io::{Failed, LoadError, Loaded, Shelf, Source};
use sgf_tree::MOST_BYTES;
use std::alloc::{AllocError, Global};
use thiserror::Error;

/// Why a file wasn't read to its end. `CannotRead` is also that of a file that the shelf tells to be absent.
#[derive(Debug, Drop, Error)]
pub(crate) enum FileError {
    #[error("cannot read")]
    CannotRead,
    #[error("too long")]
    TooLong,
    #[error(transparent)]
    Memory(AllocError),
}

impl From<Failed> for FileError {
    ghost from_gives = { λ _ e. e ≡ CannotRead };

    fn from(_: Failed) -> Self {
        FileError::CannotRead
    }
}

impl From<AllocError> for FileError {
    ghost from_gives = { λ cause e. e ≡ Memory cause };

    fn from(cause: AllocError) -> Self {
        FileError::Memory(cause)
    }
}

/// Reads all that a source has left, of at most 1,048,576 bytes.
fn read_source<S: Source>(alloc: Global, lines: &mut S) -> Result<Vec<u8>, FileError>
    ensures whole { IfOk result (λ file. IsWhole (S.left lines.old) (S.left lines.new) file.items) }
    ensures too_long { IsErrOf result FileError.TooLong
        → IsLonger MOST_BYTES (told_source (S.left lines.old)) }
    ensures cannot_read { IsErrOf result FileError.CannotRead
        → Rose (S.faults lines.old) (S.faults lines.new) }
    ensures takes { TakesAtMost most_of_file (S.left lines.old) (S.left lines.new) }
    ensures later { S.faults lines.old ≤ S.faults lines.new }
{
    let mut file = Vec::new(alloc);
    let mut piece = [0u8; 4096];
    while file.len() <= MOST_BYTES {
        let room = (MOST_BYTES + 1 - file.len()).min(piece.len());
        let count = lines.read(&mut piece[..room])?;
        if count == 0 {
            return Ok(file);
        }
        file.extend_from_slice(&piece[..count])?;
    }
    Err(FileError::TooLong)
}

/// Loads a file of a shelf, of at most 1,048,576 bytes.
fn load_file<H: Shelf>(alloc: Global, shelf: &mut H, name: &str) -> Result<Vec<u8>, FileError>
    ensures short { IfOk result (λ file. HasFewBytes file.items) }
    ensures told { IfOk result (λ file. IsTold
        (told_file (H.files shelf.old) name.now) file.items) }
    ensures too_long { IsErrOf result FileError.TooLong
        → IsLonger MOST_BYTES (told_file (H.files shelf.old) name.now) }
    ensures cannot_read { IsErrOf result FileError.CannotRead
        → (told_file (H.files shelf.old) name.now ≡ absent)
        ⊎ Rose (H.faults shelf.old) (H.faults shelf.new) }
    ensures asked { H.asks shelf.old name.now shelf.new }
    ensures same_files { H.files shelf.new ≡ H.files shelf.old }
    ensures later { H.faults shelf.old ≤ H.faults shelf.new }
{
    let mut file = Vec::new(alloc);
    match shelf.load(name, MOST_BYTES, &mut file) {
        Ok(Loaded::Whole) => Ok(file),
        Ok(Loaded::Longer) => Err(FileError::TooLong),
        Err(LoadError::Absent | LoadError::Failed) => Err(FileError::CannotRead),
        Err(LoadError::Memory(cause)) => Err(FileError::Memory(cause)),
    }
}

/// Reads the file of a word: the source where it is `-`, and else the shelf.
pub(crate) fn read_file<H: Shelf, S: Source>(
    alloc: Global,
    shelf: &mut H,
    lines: &mut S,
    word: &str,
) -> Result<Vec<u8>, FileError>
    ensures short { IfOk result (λ file. HasFewBytes file.items) }
    ensures told { IfOk result (λ file. IsTold (told_of
        (input_of H.Shelf S.Source shelf.old lines.old) word.now) file.items) }
    ensures too_long { IsErrOf result FileError.TooLong → IsLonger MOST_BYTES
        (told_of (input_of H.Shelf S.Source shelf.old lines.old) word.now) }
    ensures cannot_read { IsErrOf result FileError.CannotRead
        → (told_of (input_of H.Shelf S.Source shelf.old lines.old) word.now ≡ absent)
        ⊎ Rose (count_of (input_of H.Shelf S.Source shelf.old lines.old) word.now)
        (count_of (input_of H.Shelf S.Source shelf.new lines.new) word.now) }
    ensures reads { ReadsFile H.Shelf S.Source word.now
        shelf.old lines.old shelf.new lines.new }
    ensures at_end { IfOk result (λ file. word.now ≡ dash
        → S.left lines.new ≡ ended (S.left lines.old)) }
{
    if word == "-" {
        return read_source(alloc, lines);
    }
    load_file(alloc, shelf, word)
}
