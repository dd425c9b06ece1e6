//! The end of a run.

ghost use Rattle.std.specs.Prelude.{◌≤◌};
ghost use Rattle.endgame_questions.specs.Written.{Finishes};

use crate::status::Status;
use desk_io::Sink;

/// Writes the text of a status at once.
pub fn finish<K: Sink>(out: &mut K, status: Status, text: &[u8]) -> Status
    ensures later { K.faults out.old ≤ K.faults out.new }
    ensures written { Finishes status text.now (K.faults out.old) (K.faults out.new)
        (K.holds out.old) (K.holds out.new) result }
{
    match out.write(text) {
        Ok(()) => status,
        Err(_) => Status::CannotWrite,
    }
}
