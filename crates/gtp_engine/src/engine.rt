//! The engine.

ghost use Rattle.std.specs.Prelude.{◌≡◌, ◌≤◌, ◌<◌, ◌⊎◌, List, ℕ, [], Some, true, false, IfOk, OnErr};
ghost use Rattle.sgf_go.specs.Komi.{IsInRange};
ghost use Rattle.gtp_words.specs.Asking.{AsksBy};
ghost use Rattle.gtp_words.specs.declared.loading.Loading.TheVariants.{Position};
ghost use Rattle.gtp_engine.specs.Asking.{AskedNames, LineNames, OrderNames};
ghost use Rattle.gtp_engine.specs.inner.Doing.{AsksInRange, HasKomiInRange, IsDone, IsFresh, IsLoadNoted, IsPlainOrder, IsRunning};
ghost use Rattle.gtp_engine.specs.inner.Viewed.{asked_of, order_of};
ghost use Rattle.gtp_engine.specs.Kept.{HasRoomFor, LeavesRoom};
ghost use Rattle.gtp_engine.specs.Request.Asked.{something};
ghost use Rattle.gtp_engine.specs.Request.Order.{boardsize, komi, loadsgf};
ghost use Rattle.gtp_engine.specs.Session.{SaysWhetherKnown, done, fresh, is_last, refused, reply_text};
ghost use Rattle.gtp_engine.specs.Steps.{AreLineSteps, AskForTurn, IsTurn, OpensWithin};
ghost use Rattle.gtp_engine.specs.Written.{IsEngineReply, unused};
ghost use Rattle.gtp_engine.specs.inner.Written.{IsMet, IsObeyed};

use crate::command::read_command;
use crate::limits::EngineLimits;
use crate::playing::Action;
use crate::reply::{Refusal, accept, refuse};
use crate::request::{Asked, Request, read_asked};
use crate::setups::fresh;
use desk_io::Shelf;
use engine_player::Player;
use game_text::Text;
use go_grid::Size;
use gtp_words::{Answer, Loading, Loads, MOST_LOADS, clean, load, split, take_id};
use local_play::Steps;
use sgf_go::Setup;
use std::alloc::{AllocError, Global};
use std::marker::Model;
use std::sync::ledger::Ledger;
use std::{mem, str};

/// A setup, and the game that runs after it, if one does; and the loads so far. Contracts see these and the limits.
#[derive(Drop)]
pub struct Engine {
    pub(crate) limits: EngineLimits,
    pub(crate) setup: Setup,
    pub(crate) game: Option<Player>,
    loads: Loads,
}

impl Model for Engine {
    ghost use Rattle.gtp_engine.specs.Written.{Engine};

    ghost Value = { Engine };

    ghost view = { λ e. record {
      limits = e.limits;
      table = record { setup = e.setup; game = e.game };
      loads = e.loads;
    } };
}

/// The names of all commands, one a line.
const ALL_COMMANDS: &[u8] =
    b"protocol_version\nname\nversion\nknown_command\nlist_commands\nboardsize\nclear_board\nkomi\nplay\ngenmove\nloadsgf\nquit";

/// Whether a word is the name of a command.
fn known(word: &[u8]) -> &'static [u8]
    ensures { SaysWhetherKnown word.now result.now }
{
    match read_command(word) {
        Some(_) => b"true",
        None => b"false",
    }
}

/// Whether a request ends the session.
fn is_quit(request: &Request<'_>) -> bool
    ensures { result ≡ is_last (something (order_of request.now)) }
{
    matches!(request, Request::Quit)
}

/// A refusal after which the session goes on.
fn refusal(alloc: Global, id: &[u8], why: Refusal) -> Result<Answer, AllocError>
    ensures reply { IfOk result (λ answer. answer.reply ≡ reply_text id.now (refused why)) }
    ensures quit { IfOk result (λ answer. answer.quit ≡ false) }
{
    let reply = refuse(alloc, id, why)?;
    Ok(Answer { reply, quit: false })
}

impl Engine {
    /// An engine with an empty board of 19 by 19, no komi and Black to move.
    pub fn new(alloc: Global, limits: EngineLimits) -> Result<Engine, AllocError>
        ensures { IfOk result (λ engine. engine ≡ unused limits) }
    {
        let size = Size {
            columns: 19,
            rows: 19,
        };
        Ok(Engine {
            limits,
            setup: fresh(alloc, size, 0)?,
            game: None,
            loads: Loads::new(alloc),
        })
    }

    /// The loads so far.
    pub fn loads(&self) -> &Loads
        ensures { result.now ≡ self.now.loads }
    {
        &self.loads
    }

    /// Puts a setup and a game in the place of those that stood there.
    pub(crate) fn put(&mut self, setup: Setup, game: Option<Player>)
        ensures { self.new ≡ record self.old {
          table = record { setup = setup; game = game };
        } }
    {
        self.setup = setup;
        // A game is large: as a call its drop is one step of the proof.
        drop(mem::replace(&mut self.game, game));
    }

    /// A fresh empty board of a size with the present komi.
    fn clear(&mut self, id: &[u8], size: Size) -> Result<Text, AllocError>
        ensures cleared { IfOk result (λ reply. (reply ≡ reply_text id.now (done []))
            × (self.new ≡ record self.old {
              table = fresh size.columns size.rows
                  self.old.table.setup.komi_halves;
            })) }
        ensures same { OnErr result (self.new ≡ self.old) }
    {
        let alloc = self.setup.board().allocator();
        let setup = fresh(alloc, size, self.setup.komi_halves())?;
        let reply = accept(alloc, id, b"")?;
        self.put(setup, None);
        Ok(reply)
    }

    /// A fresh empty board of so many columns and rows with the present komi.
    fn resize(&mut self, id: &[u8], number: u64) -> Result<Text, AllocError>
        ensures resized { IfOk result (λ reply. IsDone
            (boardsize number) id.now self.old reply self.new) }
        ensures same { OnErr result (self.new ≡ self.old) }
    {
        if number < 1 || number > 25 {
            let reply = refuse(
                self.setup.board().allocator(),
                id,
                Refusal::UnacceptableSize,
            )?;
            return Ok(reply);
        }
        let side = number as u8;
        let size = Size {
            columns: side,
            rows: side,
        };
        let reply = self.clear(id, size)?;
        Ok(reply)
    }

    /// Whether a game runs.
    pub(crate) fn is_running(&self) -> bool
        ensures running { result ≡ true → IsRunning self.now }
        ensures fresh { result ≡ false → IsFresh self.now }
    {
        match &self.game {
            Some(_game) => true,
            None => false,
        }
    }

    /// The komi of a fresh setup.
    fn set_komi(&mut self, id: &[u8], halves: i64) -> Result<Text, AllocError>
        requires { IsInRange halves }
        ensures set { IfOk result (λ reply. IsDone (komi halves) id.now self.old reply self.new) }
        ensures same { OnErr result (self.new ≡ self.old) }
    {
        let alloc = self.setup.board().allocator();
        if self.is_running() {
            let reply = refuse(alloc, id, Refusal::GameHasBegun)?;
            return Ok(reply);
        }
        let reply = accept(alloc, id, b"")?;
        self.setup.set_komi(halves);
        Ok(reply)
    }

    /// Takes up the position of a file, or leaves all as it was where memory is refused.
    fn take_up(&mut self, id: &[u8], setup: Setup) -> Result<Text, AllocError>
        requires few { self.old.loads.count < MOST_LOADS }
        ensures noted { IfOk result (λ reply. IsLoadNoted
            id.now (Position setup) self.old reply self.new) }
        ensures same { OnErr result (self.new ≡ self.old) }
    {
        match accept(self.setup.board().allocator(), id, b"") {
            Ok(reply) => {
                self.put(setup, None);
                self.loads.note_made();
                Ok(reply)
            }
            Err(cause) => {
                drop(setup);
                Err(cause)
            }
        }
    }

    /// Notes what a load comes to.
    fn note(&mut self, id: &[u8], loading: Loading) -> Result<Text, AllocError>
        requires few { self.old.loads.count < MOST_LOADS }
        ensures noted { IfOk result (λ reply. IsLoadNoted id.now loading self.old reply self.new) }
        ensures same { OnErr result (self.new ≡ self.old) }
    {
        let alloc = self.setup.board().allocator();
        match loading {
            Loading::Position(setup) => self.take_up(id, setup),
            Loading::Nothing => {
                let refused = refuse(alloc, id, Refusal::CannotLoadFile)?;
                self.loads.note_made();
                Ok(refused)
            }
            Loading::Failed => {
                let refused = refuse(alloc, id, Refusal::CannotLoadFile)?;
                self.loads.note_failed()?;
                Ok(refused)
            }
        }
    }

    /// Loads a file of the shelf.
    fn load_file<H: Shelf>(
        &mut self,
        id: &[u8],
        file: &[u8],
        after: Option<u32>,
        shelf: &mut H,
    ) -> Result<Text, AllocError>
        requires few { self.old.loads.count < MOST_LOADS }
        ensures loaded { IfOk result (λ reply. IsObeyed (H.files shelf.old) (H.faults shelf.old)
            (H.faults shelf.new) id.now (loadsgf file.now after) self.old reply self.new) }
        ensures asked { AsksBy H.asks (OrderNames (loadsgf file.now after))
            shelf.old shelf.new result }
        ensures same { OnErr result (self.new ≡ self.old) }
        ensures same_files { H.files shelf.new ≡ H.files shelf.old }
        ensures later { H.faults shelf.old ≤ H.faults shelf.new }
    {
        let alloc = self.setup.board().allocator();
        let name = match str::from_utf8(file) {
            Ok(name) => name,
            Err(_) => return refuse(alloc, id, Refusal::CannotLoadFile),
        };
        let loading = load(alloc, shelf, name, self.limits.territory, after)?;
        self.note(id, loading)
    }

    /// Does what a request that asks for neither a file nor a turn says.
    fn obey_plain(&mut self, id: &[u8], request: Request<'_>) -> Result<Text, AllocError>
        requires plain { IsPlainOrder (order_of request) }
        requires komi { HasKomiInRange (order_of request) }
        ensures obeyed { IfOk result (λ reply. IsDone
            (order_of request.entry) id.now self.old reply self.new) }
        ensures same { OnErr result (self.new ≡ self.old) }
    {
        let alloc = self.setup.board().allocator();
        match request {
            Request::ProtocolVersion => accept(alloc, id, b"2"),
            Request::Name => accept(alloc, id, b"gdsolve"),
            Request::Version => accept(alloc, id, b"1"),
            Request::KnownCommand(word) => accept(alloc, id, known(word)),
            Request::ListCommands => accept(alloc, id, ALL_COMMANDS),
            Request::BoardSize(number) => self.resize(id, number),
            Request::ClearBoard => {
                let size = self.setup.board().size();
                self.clear(id, size)
            }
            Request::Komi(halves) => self.set_komi(id, halves),
            // These ask for a turn or a file.
            Request::Play(_, _) => unreachable!(),
            Request::GenMove(_) => unreachable!(),
            Request::LoadSgf(_, _) => unreachable!(),
            Request::Quit => accept(alloc, id, b""),
        }
    }

    /// Does what a request says.
    fn obey<H: Shelf, L: Ledger>(
        &mut self,
        id: &[u8],
        request: Request<'_>,
        shelf: &mut H,
        steps: &mut Steps<L>,
    ) -> Result<Text, AllocError>
        requires few { self.old.loads.count < MOST_LOADS }
        requires room { HasRoomFor 1 self.old.table }
        requires komi { HasKomiInRange (order_of request) }
        ensures obeyed { IfOk result (λ reply. IsObeyed (H.files shelf.old) (H.faults shelf.old)
            (H.faults shelf.new) id.now (order_of request.entry) self.old reply self.new) }
        ensures asked { AsksBy H.asks (OrderNames (order_of request.entry))
            shelf.old shelf.new result }
        ensures same { OnErr result (self.new ≡ self.old) }
        ensures same_files { H.files shelf.new ≡ H.files shelf.old }
        ensures later { H.faults shelf.old ≤ H.faults shelf.new }
        ensures steps { (steps.new ≡ steps.old) ⊎ (IsTurn (order_of request.entry)
            × OpensWithin self.old.limits self.old.table steps.old steps.new) }
    {
        match request {
            Request::Play(colour, wanted) => {
                self.take_turn(id, colour, Action::Play(wanted), steps)
            }
            Request::GenMove(colour) => self.take_turn(id, colour, Action::Generate, steps),
            Request::LoadSgf(file, after) => self.load_file(id, file, after, shelf),
            plain => self.obey_plain(id, plain),
        }
    }

    /// Answers what words ask for.
    fn meet<H: Shelf, L: Ledger>(
        &mut self,
        id: &[u8],
        asked: Asked<'_>,
        shelf: &mut H,
        steps: &mut Steps<L>,
    ) -> Result<Answer, AllocError>
        requires few { self.old.loads.count < MOST_LOADS }
        requires room { HasRoomFor 1 self.old.table }
        requires komi { AsksInRange (asked_of asked) }
        ensures met { IfOk result (λ answer. IsMet (H.files shelf.old) (H.faults shelf.old)
            (H.faults shelf.new) id.now (asked_of asked.entry) self.old answer.reply self.new) }
        ensures asked { AsksBy H.asks (AskedNames (asked_of asked.entry))
            shelf.old shelf.new result }
        ensures quit { IfOk result (λ answer. answer.quit ≡ is_last (asked_of asked.entry)) }
        ensures same { OnErr result (self.new ≡ self.old) }
        ensures same_files { H.files shelf.new ≡ H.files shelf.old }
        ensures later { H.faults shelf.old ≤ H.faults shelf.new }
        ensures steps { (steps.new ≡ steps.old) ⊎ (AskForTurn (asked_of asked.entry)
            × OpensWithin self.old.limits self.old.table steps.old steps.new) }
    {
        let alloc = self.setup.board().allocator();
        match asked {
            Asked::Something(request) => {
                let quit = is_quit(&request);
                let reply = self.obey(id, request, shelf, steps)?;
                Ok(Answer { reply, quit })
            }
            Asked::Unknown => refusal(alloc, id, Refusal::UnknownCommand),
            Asked::Misfit => refusal(alloc, id, Refusal::SyntaxError),
        }
    }

    /// Answers a line, or leaves the engine as it was where memory is refused. A load that fails is noted. Where
    /// kos are admitted the game that runs must have room for a move.
    pub fn answer<H: Shelf, L: Ledger>(
        &mut self,
        line: &[u8],
        shelf: &mut H,
        steps: &mut Steps<L>,
    ) -> Result<Answer, AllocError>
        requires few { self.old.loads.count < MOST_LOADS }
        requires room { HasRoomFor 1 self.old.table }
        ensures answered { IfOk result (λ answer. IsEngineReply (H.files shelf.old)
            (H.faults shelf.old)
            (H.faults shelf.new) line.now self.old answer.reply self.new answer.quit) }
        ensures asked { AsksBy H.asks (LineNames line.now) shelf.old shelf.new result }
        ensures room { LeavesRoom self.old.table self.new.table }
        ensures same { OnErr result (self.new ≡ self.old) }
        ensures same_files { H.files shelf.new ≡ H.files shelf.old }
        ensures later_loads { H.faults shelf.old ≤ H.faults shelf.new }
        ensures steps { AreLineSteps self.old.limits self.old.table line.now
            steps.old steps.new }
    {
        let alloc = self.setup.board().allocator();
        let text = clean(alloc, line)?;
        let words = split(alloc, &text)?;
        if words.is_empty() {
            return Ok(Answer {
                reply: Text::new(alloc),
                quit: false,
            });
        }
        let headed = take_id(&words);
        let answer = self.meet(headed.id, read_asked(headed.rest), shelf, steps)?;
        Ok(answer)
    }
}
