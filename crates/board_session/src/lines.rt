//! A session over lines.

ghost use Rattle.std.specs.Prelude.{◌≡◌, ◌≤◌, List, ℕ, [], Some, length};
ghost use Rattle.desk_io.specs.Lines.{UsesLines};
ghost use Rattle.desk_io.specs.Outside.{Rose};
ghost use Rattle.gtp_words.specs.declared.end.GtpEnd.TheVariants.{ReadFault, WriteFault};
ghost use Rattle.gtp_words.specs.Asking.{AsksInSession};
ghost use Rattle.gtp_words.specs.Loads.{AreLoads, RoseBy};
ghost use Rattle.gtp_words.specs.Sessions.{WritesByEnd};
ghost use Rattle.gtp_words.specs.Steps.{StepsByEnd, StepsOfLines, counted};
ghost use Rattle.board_session.specs.Asking.{LineNames};
ghost use Rattle.board_session.specs.Session.{AnswersLine};
ghost use Rattle.board_orders.specs.States.{first_state, BoardState};
ghost use Rattle.board_session.specs.Steps.{AreLineSteps};
ghost use Rattle.board_session.specs.Written.{unused};

use crate::engine::BoardEngine;
use desk_io::{MOST_LINES, Shelf, Sink, Source};
use gtp_words::{Answer, AnswersLines, GtpEnd, run_session};
use local_play::Steps;
use std::alloc::AllocError;
use std::sync::ledger::Ledger;

impl AnswersLines for BoardEngine {
    ghost use Rattle.board_session.specs.declared.limits.BoardLimits.{BoardLimits};
    ghost use Rattle.board_session.specs.Asking.{LineNames};
    ghost use Rattle.board_session.specs.Session.{AnswersLine};
    ghost use Rattle.board_orders.specs.States.{BoardState};
    ghost use Rattle.board_session.specs.Steps.{AreLineSteps};
    ghost use Rattle.board_session.specs.Written.{CanAnswer, loaded};

    ghost State = { BoardState };

    ghost Rules = { BoardLimits };

    ghost rules = { λ e. e.limits };

    ghost loaded = { loaded };

    ghost replies = { AnswersLine };

    ghost names = { LineNames };

    ghost line_steps = { AreLineSteps };

    ghost has_room = { CanAnswer };

    fn answer_line<H: Shelf, L: Ledger>(
        &mut self,
        line: &[u8],
        shelf: &mut H,
        steps: &mut Steps<L>,
    ) -> Result<Answer, AllocError> {
        self.answer(line, shelf, steps)
    }
}

impl BoardEngine {
    /// Reads lines and answers each, until one ends the session, the input is at its end, or 10,000 lines were read.
    pub fn run<H: Shelf, S: Source, K: Sink, L: Ledger>(
        &mut self,
        shelf: &mut H,
        lines: &mut S,
        out: &mut K,
        steps: &mut Steps<L>,
    ) -> GtpEnd
        requires first { self.old ≡ unused self.old.limits }
        ensures text { (bytes : List ℕ) → S.left lines.old ≡ Some bytes
            → WritesByEnd BoardState (AnswersLine self.old.limits (H.files shelf.old))
            self.new.loads.failures first_state bytes (K.holds out.old) (K.holds out.new)
            self.new.state (S.left lines.new) result }
        ensures asked { (bytes : List ℕ) → S.left lines.old ≡ Some bytes → AsksInSession H.asks
            LineNames bytes shelf.old (S.left lines.new) shelf.new result }
        ensures steps { (bytes : List ℕ) → S.left lines.old ≡ Some bytes
            → StepsByEnd BoardState (AreLineSteps self.old.limits)
            (AnswersLine self.old.limits (H.files shelf.old)) self.new.loads.failures
            (counted first_state steps.old) bytes (K.holds out.old) (K.holds out.new)
            (counted self.new.state steps.new) (S.left lines.new) result }
        ensures lines { StepsOfLines (AreLineSteps self.old.limits)
            (AnswersLine self.old.limits (H.files shelf.old)) MOST_LINES
            (counted first_state steps.old) (counted self.new.state steps.new) }
        ensures loads { AreLoads self.new.loads }
        ensures counted { RoseBy (length self.new.loads.failures) (H.faults shelf.old)
            (H.faults shelf.new) }
        ensures read_fault { result ≡ ReadFault → Rose (S.faults lines.old) (S.faults lines.new) }
        ensures write_fault { result ≡ WriteFault → Rose (K.faults out.old) (K.faults out.new) }
        ensures used { (held : List ℕ) × (length held ≤ 1024)
            × UsesLines 1024 0 MOST_LINES [] (S.left lines.old) held (S.left lines.new) }
        ensures same_files { H.files shelf.new ≡ H.files shelf.old }
        ensures later_loads { H.faults shelf.old ≤ H.faults shelf.new }
        ensures later_reads { S.faults lines.old ≤ S.faults lines.new }
        ensures later_writes { K.faults out.old ≤ K.faults out.new }
    {
        run_session(self, shelf, lines, out, steps)
    }
}
