//! The engine: a session, and the loads of files that its lines ask for.

ghost use Rattle.std.specs.Prelude.{◌≡◌, ◌≤◌, ◌<◌, ◌⊎◌, ◌+◌, length, IfOk, OnErr};
ghost use Rattle.desk_io.specs.declared.lines.TheConstants.{MOST_LINES};
ghost use Rattle.gtp_words.specs.Asking.{AsksBy};
ghost use Rattle.gtp_words.specs.declared.loading.Loading.TheVariants.{Position};
ghost use Rattle.board_session.specs.Asking.{AskedNames, LineNames, OrderNames};
ghost use Rattle.board_orders.specs.Orders.Asked.{something};
ghost use Rattle.board_orders.specs.Orders.BoardOrder.{loadsgf};
ghost use Rattle.board_session.specs.Session.{is_last};
ghost use Rattle.board_session.specs.Steps.{AreLineSteps, AskToSolve, OrderSolves, SolvesWithin};
ghost use Rattle.board_session.specs.Written.{IsBoardReply, unused};
ghost use Rattle.board_orders.specs.Doing.{AsksInRange, HasKomiInRange};
ghost use Rattle.board_session.specs.inner.Doing.{CanTakeUp};
ghost use Rattle.board_session.specs.inner.Obeying.{IsLoadNoted, IsMet, IsObeyed};
ghost use Rattle.board_orders.specs.Viewed.{asked_of, order_of};

use crate::analysis::analyse;
use crate::generating::{generate, suggest};
use crate::limits::BoardLimits;
use board_orders::{Asked, BoardSession, Refusal, Request, accept, read_asked, refuse};
use board_words::colour_word;
use desk_io::Shelf;
use gtp_words::{Answer, Loading, Loads, MOST_LOADS, clean, load, split, take_id};
use item_list::ItemList;
use local_play::Steps;
use sgf_go::Setup;
use std::alloc::{AllocError, Global};
use std::marker::Model;
use std::str;
use std::sync::ledger::Ledger;

/// A board session and its loads. Contracts see these and the limits.
#[derive(Drop)]
pub struct BoardEngine {
    limits: BoardLimits,
    session: BoardSession,
    loads: Loads,
}

impl Model for BoardEngine {
    ghost use Rattle.board_session.specs.Written.{BoardEngine};

    ghost Value = { BoardEngine };

    ghost view = { λ e. record { limits = e.limits; state = e.session; loads = e.loads } };
}

/// Whether a request ends the session.
fn is_quit(request: &Request<'_, '_>) -> bool
    ensures { result ≡ is_last (something (order_of request.now)) }
{
    matches!(request, Request::Quit)
}

impl BoardEngine {
    /// An engine with an empty board of 19 by 19 and no komi.
    pub fn new(alloc: Global, limits: BoardLimits) -> Result<BoardEngine, AllocError>
        ensures { IfOk result (λ engine. engine ≡ unused limits) }
    {
        Ok(BoardEngine {
            limits,
            session: BoardSession::new(alloc)?,
            loads: Loads::new(alloc),
        })
    }

    /// Takes up the position of a file, or leaves all as it was where memory is refused.
    fn take_up(&mut self, id: &[u8], setup: Setup) -> Result<ItemList<u8>, AllocError>
        requires few { self.old.loads.count < MOST_LOADS }
        requires fit { CanTakeUp (Position setup) }
        ensures noted { IfOk result (λ reply. IsLoadNoted
            id.now (Position setup) self.old reply self.new) }
        ensures same { OnErr result (self.new ≡ self.old) }
    {
        match accept(
            self.session.allocator(),
            id,
            colour_word(setup.side()).as_bytes(),
        ) {
            Ok(reply) => {
                self.session.take_up(setup);
                self.loads.note_made();
                Ok(reply)
            }
            Err(cause) => {
                drop(setup);
                Err(cause)
            }
        }
    }

    /// Notes what a load comes to.
    fn note(&mut self, id: &[u8], loading: Loading) -> Result<ItemList<u8>, AllocError>
        requires few { self.old.loads.count < MOST_LOADS }
        requires fit { CanTakeUp loading }
        ensures noted { IfOk result (λ reply. IsLoadNoted id.now loading self.old reply self.new) }
        ensures same { OnErr result (self.new ≡ self.old) }
    {
        let alloc = self.session.allocator();
        match loading {
            Loading::Position(setup) => self.take_up(id, setup),
            Loading::Nothing => {
                let refused = refuse(alloc, id, Refusal::CannotLoadFile)?;
                self.loads.note_made();
                Ok(refused)
            }
            Loading::Failed => {
                let refused = refuse(alloc, id, Refusal::CannotLoadFile)?;
                self.loads.note_failed()?;
                Ok(refused)
            }
        }
    }

    /// Loads a file of the shelf.
    fn load_file<H: Shelf>(
        &mut self,
        id: &[u8],
        file: &[u8],
        after: Option<u32>,
        shelf: &mut H,
    ) -> Result<ItemList<u8>, AllocError>
        requires few { self.old.loads.count < MOST_LOADS }
        ensures loaded { IfOk result (λ reply. IsObeyed (H.files shelf.old) (H.faults shelf.old)
            (H.faults shelf.new) id.now (loadsgf file.now after) self.old reply self.new) }
        ensures asked { AsksBy H.asks (OrderNames (loadsgf file.now after))
            shelf.old shelf.new result }
        ensures same { OnErr result (self.new ≡ self.old) }
        ensures same_files { H.files shelf.new ≡ H.files shelf.old }
        ensures later { H.faults shelf.old ≤ H.faults shelf.new }
    {
        let alloc = self.session.allocator();
        let name = match str::from_utf8(file) {
            Ok(name) => name,
            Err(_) => return refuse(alloc, id, Refusal::CannotLoadFile),
        };
        let loading = load(alloc, shelf, name, self.limits.territory, after)?;
        self.note(id, loading)
    }

    /// Does what a request says.
    fn obey<H: Shelf, L: Ledger>(
        &mut self,
        id: &[u8],
        request: Request<'_, '_>,
        shelf: &mut H,
        steps: &mut Steps<L>,
    ) -> Result<ItemList<u8>, AllocError>
        requires few { self.old.loads.count < MOST_LOADS }
        requires few_moves { length self.old.state.moves < MOST_LINES }
        requires komi { HasKomiInRange (order_of request) }
        ensures obeyed { IfOk result (λ reply. IsObeyed (H.files shelf.old) (H.faults shelf.old)
            (H.faults shelf.new) id.now (order_of request.entry) self.old reply self.new) }
        ensures asked { AsksBy H.asks (OrderNames (order_of request.entry))
            shelf.old shelf.new result }
        ensures same { OnErr result (self.new ≡ self.old) }
        ensures same_files { H.files shelf.new ≡ H.files shelf.old }
        ensures later { H.faults shelf.old ≤ H.faults shelf.new }
        ensures steps { (steps.new ≡ steps.old) ⊎ (OrderSolves (order_of request.entry)
            × SolvesWithin self.old.limits self.old.state steps.old steps.new) }
    {
        match request {
            Request::LoadSgf(file, after) => self.load_file(id, file, after, shelf),
            Request::GenMove(colour) => {
                generate(
                    &mut self.session,
                    id,
                    colour,
                    &self.limits.game,
                    self.limits.cycles,
                    steps,
                )
            }
            Request::RegGenMove(colour) => {
                suggest(
                    &self.session,
                    id,
                    colour,
                    &self.limits.game,
                    self.limits.cycles,
                    steps,
                )
            }
            Request::Analyse(analysis) => {
                analyse(
                    &self.session,
                    id,
                    analysis,
                    &self.limits.game,
                    self.limits.cycles,
                    steps,
                )
            }
            plain => self.session.obey(id, plain),
        }
    }

    /// Answers what words ask for.
    fn meet<H: Shelf, L: Ledger>(
        &mut self,
        id: &[u8],
        asked: Asked<'_, '_>,
        shelf: &mut H,
        steps: &mut Steps<L>,
    ) -> Result<Answer, AllocError>
        requires few { self.old.loads.count < MOST_LOADS }
        requires few_moves { length self.old.state.moves < MOST_LINES }
        requires komi { AsksInRange (asked_of asked) }
        ensures met { IfOk result (λ answer. IsMet (H.files shelf.old) (H.faults shelf.old)
            (H.faults shelf.new) id.now (asked_of asked.entry) self.old answer.reply self.new) }
        ensures asked { AsksBy H.asks (AskedNames (asked_of asked.entry))
            shelf.old shelf.new result }
        ensures quit { IfOk result (λ answer. answer.quit ≡ is_last (asked_of asked.entry)) }
        ensures same { OnErr result (self.new ≡ self.old) }
        ensures same_files { H.files shelf.new ≡ H.files shelf.old }
        ensures later { H.faults shelf.old ≤ H.faults shelf.new }
        ensures steps { (steps.new ≡ steps.old) ⊎ (AskToSolve (asked_of asked.entry)
            × SolvesWithin self.old.limits self.old.state steps.old steps.new) }
    {
        let alloc = self.session.allocator();
        match asked {
            Asked::Something(request) => {
                let quit = is_quit(&request);
                let reply = self.obey(id, request, shelf, steps)?;
                Ok(Answer { reply, quit })
            }
            Asked::Unknown => {
                let reply = refuse(alloc, id, Refusal::UnknownCommand)?;
                Ok(Answer { reply, quit: false })
            }
            Asked::Misfit => {
                let reply = refuse(alloc, id, Refusal::SyntaxError)?;
                Ok(Answer { reply, quit: false })
            }
        }
    }

    /// Answers a line, or leaves the engine as it was where memory is refused. A load that fails is noted.
    pub fn answer<H: Shelf, L: Ledger>(
        &mut self,
        line: &[u8],
        shelf: &mut H,
        steps: &mut Steps<L>,
    ) -> Result<Answer, AllocError>
        requires few { self.old.loads.count < MOST_LOADS }
        requires few_moves { length self.old.state.moves < MOST_LINES }
        ensures answered { IfOk result (λ answer. IsBoardReply (H.files shelf.old)
            (H.faults shelf.old)
            (H.faults shelf.new) line.now self.old answer.reply self.new answer.quit) }
        ensures asked { AsksBy H.asks (LineNames line.now) shelf.old shelf.new result }
        ensures grown { length self.new.state.moves ≤ length self.old.state.moves + 1 }
        ensures same { OnErr result (self.new ≡ self.old) }
        ensures same_files { H.files shelf.new ≡ H.files shelf.old }
        ensures later_loads { H.faults shelf.old ≤ H.faults shelf.new }
        ensures steps { AreLineSteps self.old.limits self.old.state line.now
            steps.old steps.new }
    {
        let alloc = self.session.allocator();
        let text = clean(alloc, line)?;
        let words = split(alloc, &text)?;
        if words.is_empty() {
            return Ok(Answer {
                reply: ItemList::new(alloc),
                quit: false,
            });
        }
        let headed = take_id(&words);
        let answer = self.meet(headed.id, read_asked(headed.rest), shelf, steps);
        drop(words);
        drop(text);
        answer
    }
}
