//! Sessions over lines: each is read and answered, until one ends the session.

ghost use Rattle.std.specs.Prelude.{◌≡◌, ◌≤◌, ◌<◌, ◌+◌, ◌++◌, Bool, List, ℕ, [], None, Some, IfOk, OnErr, length};
ghost use Rattle.std.specs.declared.option.Option.{Option};
ghost use Rattle.desk_io.specs.Files.{Files};
ghost use Rattle.desk_io.specs.Lines.{UsesLines};
ghost use Rattle.desk_io.specs.Outside.{Appends, HasCause, Rose};
ghost use Rattle.gtp_words.specs.declared.end.GtpEnd.TheVariants.{ReadFault, WriteFault};
ghost use Rattle.gtp_words.specs.Asking.{AsksBy, AsksInSession};
ghost use Rattle.gtp_words.specs.Loads.{AreLoads, Fate, RoseBy, unloaded};
ghost use Rattle.gtp_words.specs.Sessions.{IsReply, Loaded, WritesByEnd};
ghost use Rattle.gtp_words.specs.Steps.{StepsByEnd, StepsOfLines, counted};
ghost use Rattle.gtp_words.specs.inner.Taking.{AskedOnLine, IsSomeNoted, LineCounted, LineStepped};

use crate::end::GtpEnd;
use crate::loads::MOST_LOADS;
use desk_io::{Failed, LineReader, MOST_LINES, Shelf, Sink, Source};
use item_list::ItemList;
use local_play::Steps;
use std::alloc::AllocError;
use std::sync::ledger::Ledger;

/// The most bytes of a line.
const MOST_BYTES: usize = 1_024;

/// The reply to a line, and whether the session ends with it.
#[derive(Drop)]
pub struct Answer {
    pub reply: ItemList<u8>,
    pub quit: bool,
}

/// What answers the lines of a session.
pub trait AnswersLines {
    /// What is kept from line to line, beside the loads.
    ghost State: { Type 0 };

    /// What stays as it is while a session lasts.
    ghost Rules: { Type 0 };

    /// The rules of the session.
    ghost rules: { Self → Rules };

    /// The present state, and the loads so far.
    ghost loaded: { Self → Loaded State };

    /// What is replied to a line by the rules, where the shelf holds these files.
    ghost replies: { Rules → Option Files → List ℕ → Fate → State → List ℕ → State → Bool → Type 0 };

    /// The name of the file that a line asks for, if it asks for one.
    ghost names: { List ℕ → Option (List ℕ) → Type 0 };

    /// The steps of a line by the rules in a state: from which count to which.
    ghost line_steps: { Rules → State → List ℕ → ℕ → ℕ → Type 0 };

    /// So many lines more can be answered.
    ghost has_room: { ℕ → State → Type 0 };

    /// Answers a line, or leaves all as it was where memory is refused. A load that fails is noted.
    fn answer_line<H: Shelf, L: Ledger>(
        &mut self,
        line: &[u8],
        shelf: &mut H,
        steps: &mut Steps<L>,
    ) -> Result<Answer, AllocError>
        requires few { (loaded self.old).loads.count < MOST_LOADS }
        requires room { (n : ℕ) × has_room (n + 1) (loaded self.old).state }
        ensures answered { IfOk result (λ answer. IsReply State (replies (rules self.old)
            (H.files shelf.old)) (H.faults shelf.old) (H.faults shelf.new) line.now
            (loaded self.old) answer.reply (loaded self.new) answer.quit) }
        ensures asked { AsksBy H.asks (names line.now) shelf.old shelf.new result }
        ensures steps { line_steps (rules self.old) (loaded self.old).state line.now
            steps.old steps.new }
        ensures rules { rules self.new ≡ rules self.old }
        ensures room { (n : ℕ) → has_room (n + 1) (loaded self.old).state
            → has_room n (loaded self.new).state }
        ensures same { OnErr result (self.new ≡ self.old) }
        ensures same_files { H.files shelf.new ≡ H.files shelf.old }
        ensures later_loads { H.faults shelf.old ≤ H.faults shelf.new };
}

/// Writes a reply, where there is one.
fn say<K: Sink>(out: &mut K, reply: &[u8]) -> Result<(), Failed>
    ensures bytes { Appends (K.holds out.old) (K.holds out.new) result reply.now }
    ensures cause { HasCause (K.faults out.old) (K.faults out.new) result }
{
    if reply.is_empty() {
        return Ok(());
    }
    out.write(reply)
}

/// Reads and answers one line. The end of the session, if it is one.
fn take_line<A: AnswersLines, H: Shelf, S: Source, K: Sink, L: Ledger>(
    engine: &mut A,
    reader: &mut LineReader<MOST_BYTES>,
    shelf: &mut H,
    lines: &mut S,
    out: &mut K,
    steps: &mut Steps<L>,
) -> Option<GtpEnd>
    requires few { (A.loaded engine.old).loads.count < MOST_LOADS }
    requires room { (n : ℕ) × A.has_room (n + 1) (A.loaded engine.old).state }
    ensures room { result ≡ None → (n : ℕ) → A.has_room (n + 1) (A.loaded engine.old).state
        → A.has_room n (A.loaded engine.new).state }
    ensures asked { (bytes : List ℕ) → S.left lines.old ≡ Some bytes → (rest : List ℕ)
        × (S.left lines.new ≡ Some rest)
        × AskedOnLine H.asks A.names (reader.old ++ bytes) shelf.old (reader.new ++ rest) shelf.new
        result }
    ensures taken { (bytes : List ℕ) → S.left lines.old ≡ Some bytes → (rest : List ℕ)
        × (S.left lines.new ≡ Some rest)
        × LineStepped A.State (A.line_steps (A.rules engine.old))
        (A.replies (A.rules engine.old) (H.files shelf.old)) (H.faults shelf.old)
        (H.faults shelf.new) (A.loaded engine.old) steps.old (reader.old ++ bytes)
        (K.holds out.old) (K.holds out.new) result (A.loaded engine.new) steps.new
        (reader.new ++ rest) }
    ensures counted { LineCounted A.State (A.line_steps (A.rules engine.old))
        (A.replies (A.rules engine.old) (H.files shelf.old))
        (counted (A.loaded engine.old).state steps.old) result
        (counted (A.loaded engine.new).state steps.new) }
    ensures noted { IsSomeNoted (H.faults shelf.old) (H.faults shelf.new)
        (A.loaded engine.old).loads (A.loaded engine.new).loads }
    ensures rules { A.rules engine.new ≡ A.rules engine.old }
    ensures read_fault { result ≡ Some ReadFault → Rose (S.faults lines.old) (S.faults lines.new) }
    ensures write_fault { result ≡ Some WriteFault → Rose (K.faults out.old) (K.faults out.new) }
    ensures used { UsesLines 1024 0 1 reader.old (S.left lines.old) reader.new (S.left lines.new) }
    ensures few_held { length reader.new ≤ 1024 }
    ensures same_files { H.files shelf.new ≡ H.files shelf.old }
    ensures later_loads { H.faults shelf.old ≤ H.faults shelf.new }
    ensures later_reads { S.faults lines.old ≤ S.faults lines.new }
    ensures later_writes { K.faults out.old ≤ K.faults out.new }
{
    let found = match reader.find_line(lines) {
        Ok(Some(found)) => found,
        Ok(None) => return Some(GtpEnd::InputEnded),
        Err(_) => return Some(GtpEnd::ReadFault),
    };
    let Ok(answer) = engine.answer_line(reader.front(found.line), shelf, steps) else {
        return Some(GtpEnd::Memory);
    };
    reader.drop_front(found.taken);
    match say(out, answer.reply.as_slice()) {
        Ok(()) => {}
        Err(_) => return Some(GtpEnd::WriteFault),
    }
    if answer.quit {
        return Some(GtpEnd::Quit);
    }
    None
}

/// Reads lines and has each answered, until one ends the session, the input is at its end, or 10,000 lines were read.
pub fn run_session<A: AnswersLines, H: Shelf, S: Source, K: Sink, L: Ledger>(
    engine: &mut A,
    shelf: &mut H,
    lines: &mut S,
    out: &mut K,
    steps: &mut Steps<L>,
) -> GtpEnd
    requires unloaded { (A.loaded engine.old).loads ≡ unloaded }
    requires room { A.has_room MOST_LINES (A.loaded engine.old).state }
    ensures text { (bytes : List ℕ) → S.left lines.old ≡ Some bytes
        → WritesByEnd A.State (A.replies (A.rules engine.old) (H.files shelf.old))
        (A.loaded engine.new).loads.failures (A.loaded engine.old).state bytes (K.holds out.old)
        (K.holds out.new) (A.loaded engine.new).state (S.left lines.new) result }
    ensures asked { (bytes : List ℕ) → S.left lines.old ≡ Some bytes → AsksInSession H.asks A.names
        bytes shelf.old (S.left lines.new) shelf.new result }
    ensures steps { (bytes : List ℕ) → S.left lines.old ≡ Some bytes
        → StepsByEnd A.State (A.line_steps (A.rules engine.old))
        (A.replies (A.rules engine.old) (H.files shelf.old)) (A.loaded engine.new).loads.failures
        (counted (A.loaded engine.old).state steps.old) bytes (K.holds out.old) (K.holds out.new)
        (counted (A.loaded engine.new).state steps.new) (S.left lines.new) result }
    ensures lines { StepsOfLines (A.line_steps (A.rules engine.old))
        (A.replies (A.rules engine.old) (H.files shelf.old)) MOST_LINES
        (counted (A.loaded engine.old).state steps.old)
        (counted (A.loaded engine.new).state steps.new) }
    ensures loads { AreLoads (A.loaded engine.new).loads }
    ensures counted { RoseBy (length (A.loaded engine.new).loads.failures) (H.faults shelf.old)
        (H.faults shelf.new) }
    ensures rules { A.rules engine.new ≡ A.rules engine.old }
    ensures read_fault { result ≡ ReadFault → Rose (S.faults lines.old) (S.faults lines.new) }
    ensures write_fault { result ≡ WriteFault → Rose (K.faults out.old) (K.faults out.new) }
    ensures used { (held : List ℕ) × (length held ≤ 1024)
        × UsesLines 1024 0 MOST_LINES [] (S.left lines.old) held (S.left lines.new) }
    ensures same_files { H.files shelf.new ≡ H.files shelf.old }
    ensures later_loads { H.faults shelf.old ≤ H.faults shelf.new }
    ensures later_reads { S.faults lines.old ≤ S.faults lines.new }
    ensures later_writes { K.faults out.old ≤ K.faults out.new }
{
    let mut reader: LineReader<MOST_BYTES> = LineReader::new();
    'session: for _read in 0..MOST_LINES {
        if let Some(end) = take_line(engine, &mut reader, shelf, lines, out, steps) {
            return end;
        }
    }
    GtpEnd::TooManyLines
}
