//! A session over lines.

ghost use Rattle.std.specs.Prelude.{◌≡◌, ◌≤◌, List, ℕ, [], Some, length};
ghost use Rattle.desk_io.specs.Lines.{UsesLines};
ghost use Rattle.desk_io.specs.Outside.{Rose};
ghost use Rattle.gtp_words.specs.declared.end.GtpEnd.TheVariants.{ReadFault, WriteFault};
ghost use Rattle.gtp_words.specs.Asking.{AsksInSession};
ghost use Rattle.gtp_words.specs.Loads.{AreLoads, RoseBy};
ghost use Rattle.gtp_words.specs.Sessions.{WritesByEnd};
ghost use Rattle.gtp_words.specs.Steps.{StepsByEnd, StepsOfLines, counted};
ghost use Rattle.gtp_engine.specs.Asking.{LineNames};
ghost use Rattle.gtp_engine.specs.Session.{AnswersLine, Table, first_table};
ghost use Rattle.gtp_engine.specs.Steps.{AreLineSteps};
ghost use Rattle.gtp_engine.specs.Written.{unused};

use crate::engine::Engine;
use desk_io::{MOST_LINES, Shelf, Sink, Source};
use gtp_words::{Answer, AnswersLines, GtpEnd, run_session};
use local_play::Steps;
use std::alloc::AllocError;
use std::sync::ledger::Ledger;

impl AnswersLines for Engine {
    ghost use Rattle.gtp_engine.specs.declared.limits.EngineLimits.{EngineLimits};
    ghost use Rattle.gtp_engine.specs.Asking.{LineNames};
    ghost use Rattle.gtp_engine.specs.Kept.{CanAnswer};
    ghost use Rattle.gtp_engine.specs.Session.{AnswersLine, Table};
    ghost use Rattle.gtp_engine.specs.Steps.{AreLineSteps};
    ghost use Rattle.gtp_engine.specs.Written.{loaded};

    ghost State = { Table };

    ghost Rules = { EngineLimits };

    ghost rules = { λ e. e.limits };

    ghost loaded = { loaded };

    ghost replies = { AnswersLine };

    ghost names = { LineNames };

    ghost line_steps = { AreLineSteps };

    ghost has_room = { CanAnswer };

    fn answer_line<H: Shelf, L: Ledger>(
        &mut self,
        line: &[u8],
        shelf: &mut H,
        steps: &mut Steps<L>,
    ) -> Result<Answer, AllocError> {
        self.answer(line, shelf, steps)
    }
}

impl Engine {
    /// Reads lines and answers each, until one ends the session, the input is at its end, or 10,000 lines were read.
    pub fn run<H: Shelf, S: Source, K: Sink, L: Ledger>(
        &mut self,
        shelf: &mut H,
        lines: &mut S,
        out: &mut K,
        steps: &mut Steps<L>,
    ) -> GtpEnd
        requires first { self.old ≡ unused self.old.limits }
        ensures text { (bytes : List ℕ) → S.left lines.old ≡ Some bytes
            → WritesByEnd Table (AnswersLine self.old.limits (H.files shelf.old))
            self.new.loads.failures first_table bytes (K.holds out.old) (K.holds out.new)
            self.new.table (S.left lines.new) result }
        ensures asked { (bytes : List ℕ) → S.left lines.old ≡ Some bytes → AsksInSession H.asks
            LineNames bytes shelf.old (S.left lines.new) shelf.new result }
        ensures steps { (bytes : List ℕ) → S.left lines.old ≡ Some bytes
            → StepsByEnd Table (AreLineSteps self.old.limits)
            (AnswersLine self.old.limits (H.files shelf.old)) self.new.loads.failures
            (counted first_table steps.old) bytes (K.holds out.old) (K.holds out.new)
            (counted self.new.table steps.new) (S.left lines.new) result }
        ensures lines { StepsOfLines (AreLineSteps self.old.limits)
            (AnswersLine self.old.limits (H.files shelf.old)) MOST_LINES
            (counted first_table steps.old) (counted self.new.table steps.new) }
        ensures loads { AreLoads self.new.loads }
        ensures counted { RoseBy (length self.new.loads.failures) (H.faults shelf.old)
            (H.faults shelf.new) }
        ensures read_fault { result ≡ ReadFault → Rose (S.faults lines.old) (S.faults lines.new) }
        ensures write_fault { result ≡ WriteFault → Rose (K.faults out.old) (K.faults out.new) }
        ensures used { (held : List ℕ) × (length held ≤ 1024)
            × UsesLines 1024 0 MOST_LINES [] (S.left lines.old) held (S.left lines.new) }
        ensures same_files { H.files shelf.new ≡ H.files shelf.old }
        ensures later_loads { H.faults shelf.old ≤ H.faults shelf.new }
        ensures later_reads { S.faults lines.old ≤ S.faults lines.new }
        ensures later_writes { K.faults out.old ≤ K.faults out.new }
    {
        run_session(self, shelf, lines, out, steps)
    }
}
