//! The session: its state, and what each order that asks for neither a file nor the solver does to it.

ghost use Rattle.std.specs.Prelude.{◌≡◌, ◌<◌, ◌^◌, ◌++◌, ◌∷◌, All, [], length, IfOk, IfSome, IfNone, OnOk, OnErr};
ghost use Rattle.desk_io.specs.declared.lines.TheConstants.{MOST_LINES};
ghost use Rattle.go_grid.specs.declared.grid.Colour.{Colour};
ghost use Rattle.sgf_go.specs.Komi.{IsInRange};
ghost use Rattle.go_play.specs.Setup.{HasFewPrisoners};
ghost use Rattle.board_orders.specs.Kept.{IsFitAfter, IsModest, IsOnBoard};
ghost use Rattle.board_orders.specs.Orders.BoardOrder.{boardsize, clear_board, komi, play, undo};
ghost use Rattle.board_orders.specs.Effects.{SaysWhetherKnown, done, reply_text};
ghost use Rattle.board_orders.specs.States.{first_state, fresh, of_setup, present, with_stones};
ghost use Rattle.board_orders.specs.Tallies.{number_of};
ghost use Rattle.board_orders.specs.Doing.{HasKomiInRange, IsDone, IsFitMove, IsPlainOrder, IsMadeBy};
ghost use Rattle.board_orders.specs.inner.Doing.{IsLast, IsMade};
ghost use Rattle.board_orders.specs.Viewed.{order_of};

use crate::command::read_command;
use crate::position::{BoardMove, MadeMove, Position};
use crate::refusal::{Refusal, accept, refuse};
use crate::request::Request;
use crate::wanted::{Wanted, find_move};
use go_grid::{Board, Colour, Size};
use item_list::ItemList;
use sgf_go::Setup;
use std::alloc::{AllocError, Global};
use std::marker::Model;

/// The komi in half-points, the number of handicap stones, the position before the first move, and the moves so far.
#[derive(Drop)]
pub struct BoardSession {
    setup: Position,
    moves: Vec<MadeMove>,
    komi_halves: i64,
    handicap: usize,
}

impl Model for BoardSession {
    ghost use Rattle.board_orders.specs.Kept.{IsFit};
    ghost use Rattle.board_orders.specs.States.{BoardState};

    ghost Value = { BoardState };

    ghost view = { λ s. record {
      komi_halves = s.komi_halves;
      handicap = s.handicap;
      setup = s.setup;
      moves = s.moves.items;
    } };

    ghost invariant = { λ s. IsFit s.komi_halves s.setup s.moves.items };
}

/// Whether a word is the name of a command.
fn known(word: &[u8]) -> &'static [u8]
    ensures { SaysWhetherKnown word.now result.now }
{
    match read_command(word) {
        Some(_) => b"true",
        None => b"false",
    }
}

impl BoardSession {
    /// A session with an empty board of 19 by 19 and no komi.
    pub fn new(alloc: Global) -> Result<BoardSession, AllocError>
        ensures { IfOk result (λ session. session ≡ first_state) }
    {
        let size = Size {
            columns: 19,
            rows: 19,
        };
        Ok(BoardSession {
            setup: Position::bare(alloc, size)?,
            moves: Vec::new(alloc),
            komi_halves: 0,
            handicap: 0,
        })
    }

    /// The komi in half-points.
    pub fn komi_halves(&self) -> i64
        ensures value { result ≡ self.now.komi_halves }
        ensures modest { IsModest result }
    {
        self.komi_halves
    }

    /// The number of handicap stones.
    pub(crate) fn handicap(&self) -> usize
        ensures { result ≡ self.now.handicap }
    {
        self.handicap
    }

    /// The size of the board.
    pub(crate) fn size(&self) -> Size
        ensures columns { result.columns ≡ self.now.setup.board.columns }
        ensures rows { result.rows ≡ self.now.setup.board.rows }
    {
        self.setup.board.size()
    }

    /// The moves so far.
    pub(crate) fn moves(&self) -> &[MadeMove]
        ensures value { result.now ≡ self.now.moves }
        ensures stones { All (λ m. IsOnBoard self.now.setup.board.columns
            self.now.setup.board.rows m.chosen) self.now.moves }
    {
        &self.moves
    }

    /// The position on the board.
    pub fn present(&self) -> &Position
        ensures value { result.now ≡ present self.now }
        ensures fit { IsFitAfter self.now.setup (length self.now.moves) result.now }
        ensures start { (c : Colour) → number_of c self.now.setup.prisoners < 2 ^ 39 }
    {
        let moves = self.moves.as_slice();
        let number = moves.len();
        if number == 0 {
            return &self.setup;
        }
        &moves[number - 1].after
    }

    /// Where the session's memory comes from.
    pub fn allocator(&self) -> Global {
        self.setup.board.allocator()
    }

    /// The position of a file, and no moves.
    pub fn take_up(&mut self, setup: Setup)
        requires { HasFewPrisoners setup }
        ensures { self.new ≡ of_setup setup }
    {
        let black = setup.black_prisoners();
        let white = setup.white_prisoners();
        let komi_halves = setup.komi_halves();
        self.moves.clear();
        self.setup = Position::with_prisoners(setup.into_board(), black, white);
        self.handicap = 0;
        self.komi_halves = komi_halves;
    }

    /// A board with so many handicap stones, and no moves.
    pub(crate) fn begin(&mut self, board: Board, stones: usize)
        ensures { self.new ≡ with_stones self.old stones board }
    {
        self.moves.clear();
        self.setup = Position::unplayed(board);
        self.handicap = stones;
    }

    /// Begins with a board, so many handicap stones and a reply, or leaves all as it was where memory is refused.
    pub(crate) fn begin_with(
        &mut self,
        id: &[u8],
        text: &[u8],
        board: Board,
        stones: usize,
    ) -> Result<ItemList<u8>, AllocError>
        ensures begun { IfOk result (λ reply. (reply ≡ reply_text id.now (done text.now))
            × (self.new ≡ with_stones self.old stones board)) }
        ensures same { OnErr result (self.new ≡ self.old) }
    {
        match accept(self.allocator(), id, text) {
            Ok(reply) => {
                self.begin(board, stones);
                Ok(reply)
            }
            Err(cause) => {
                drop(board);
                Err(cause)
            }
        }
    }

    /// An empty board of a size with the present komi.
    fn clear(&mut self, id: &[u8], size: Size) -> Result<ItemList<u8>, AllocError>
        ensures cleared { IfOk result (λ reply. (reply ≡ reply_text id.now (done []))
            × (self.new ≡ fresh size.columns size.rows self.old.komi_halves)) }
        ensures same { OnErr result (self.new ≡ self.old) }
    {
        let board = Board::empty(self.allocator(), size)?;
        self.begin_with(id, b"", board, 0)
    }

    /// An empty board of so many columns and rows with the present komi.
    fn resize(&mut self, id: &[u8], number: u64) -> Result<ItemList<u8>, AllocError>
        ensures resized { IfOk result (λ reply. IsDone
            (boardsize number) id.now self.old reply self.new) }
        ensures same { OnErr result (self.new ≡ self.old) }
    {
        if number < 1 || number > 25 {
            let reply = refuse(self.setup.board.allocator(), id, Refusal::UnacceptableSize)?;
            return Ok(reply);
        }
        let side = number as u8;
        let size = Size {
            columns: side,
            rows: side,
        };
        let reply = self.clear(id, size)?;
        Ok(reply)
    }

    /// Makes this the komi.
    pub fn put_komi(&mut self, halves: i64)
        requires { IsModest halves }
        ensures { self.new ≡ record self.old { komi_halves = halves } }
    {
        self.komi_halves = halves;
    }

    /// Another komi.
    fn set_komi(&mut self, id: &[u8], halves: i64) -> Result<ItemList<u8>, AllocError>
        requires { IsInRange halves }
        ensures set { IfOk result (λ reply. IsDone (komi halves) id.now self.old reply self.new) }
        ensures same { OnErr result (self.new ≡ self.old) }
    {
        let reply = accept(self.setup.board.allocator(), id, b"")?;
        self.put_komi(halves);
        Ok(reply)
    }

    /// A move of the colour with the position after it, where it may be made.
    pub fn made(&self, colour: Colour, chosen: BoardMove) -> Result<Option<MadeMove>, AllocError>
        requires few { length self.now.moves < MOST_LINES }
        requires on_board { IsOnBoard (present self.now).board.columns
            (present self.now).board.rows chosen }
        ensures made { IfOk result (IsMadeBy colour chosen self.now) }
        ensures fit { IfOk result (λ made. IfSome made (IsFitMove self.now)) }
    {
        let after = self.present().after(colour, &chosen)?;
        match after {
            Some(after) => Ok(Some(MadeMove {
                after,
                komi_before: self.komi_halves,
                chosen,
                colour,
            })),
            None => Ok(None),
        }
    }

    /// The move that a word names, with the position after it, where it may be made.
    fn make(&self, colour: Colour, wanted: Wanted) -> Result<Option<MadeMove>, AllocError>
        requires few { length self.now.moves < MOST_LINES }
        ensures made { IfOk result (IsMade colour wanted self.now) }
        ensures fit { IfOk result (λ made. IfSome made (IsFitMove self.now)) }
    {
        let Some(chosen) = find_move(self.present().board.size(), wanted) else {
            return Ok(None);
        };
        self.made(colour, chosen)
    }

    /// Adds a move to those so far, or leaves them as they were where memory is refused.
    pub fn add(&mut self, made: MadeMove) -> Result<(), AllocError>
        requires { IsFitMove self.old made }
        ensures ok { OnOk result (self.new ≡ record self.old {
          moves = self.old.moves ++ made ∷ [];
        }) }
        ensures same { OnErr result (self.new ≡ self.old) }
    {
        Ok(self.moves.push(made)?)
    }

    /// Adds a move with its reply, or leaves all as it was where memory is refused.
    fn add_played(&mut self, id: &[u8], made: MadeMove) -> Result<ItemList<u8>, AllocError>
        requires { IsFitMove self.old made }
        ensures played { IfOk result (λ reply. (reply ≡ reply_text id.now (done []))
            × (self.new ≡ record self.old { moves = self.old.moves ++ made ∷ [] })) }
        ensures same { OnErr result (self.new ≡ self.old) }
    {
        match accept(self.setup.board.allocator(), id, b"") {
            Ok(reply) => {
                self.add(made)?;
                Ok(reply)
            }
            Err(cause) => {
                drop(made);
                Err(cause)
            }
        }
    }

    /// A move of the colour.
    fn play(
        &mut self,
        id: &[u8],
        colour: Colour,
        wanted: Wanted,
    ) -> Result<ItemList<u8>, AllocError>
        requires few { length self.old.moves < MOST_LINES }
        ensures played { IfOk result (λ reply. IsDone
            (play colour wanted) id.now self.old reply self.new) }
        ensures same { OnErr result (self.new ≡ self.old) }
    {
        let made = self.make(colour, wanted)?;
        match made {
            Some(made) => self.add_played(id, made),
            None => refuse(self.setup.board.allocator(), id, Refusal::IllegalMove),
        }
    }

    /// Takes the last move off, where there is one.
    fn take_last(&mut self) -> Option<MadeMove>
        ensures some { IfSome result (IsLast self.old self.new) }
        ensures none { IfNone result ((self.old.moves ≡ []) × (self.new ≡ self.old)) }
        ensures komi { IfSome result (λ made. IsModest made.komi_before) }
    {
        self.moves.pop()
    }

    /// The state before the last move.
    fn take_back(&mut self, id: &[u8]) -> Result<ItemList<u8>, AllocError>
        ensures taken { IfOk result (λ reply. IsDone undo id.now self.old reply self.new) }
        ensures same { OnErr result (self.new ≡ self.old) }
    {
        let alloc = self.setup.board.allocator();
        let taken = accept(alloc, id, b"")?;
        let refused = refuse(alloc, id, Refusal::CannotUndo)?;
        match self.take_last() {
            Some(made) => {
                self.put_komi(made.komi_before);
                Ok(taken)
            }
            None => Ok(refused),
        }
    }

    /// Does what a request that asks for neither a file nor the solver says.
    pub fn obey(&mut self, id: &[u8], request: Request<'_, '_>) -> Result<ItemList<u8>, AllocError>
        requires plain { IsPlainOrder (order_of request) }
        requires few { length self.old.moves < MOST_LINES }
        requires komi { HasKomiInRange (order_of request) }
        ensures obeyed { IfOk result (λ reply. IsDone
            (order_of request.entry) id.now self.old reply self.new) }
        ensures same { OnErr result (self.new ≡ self.old) }
    {
        let alloc = self.setup.board.allocator();
        match request {
            Request::Tell(text) => accept(alloc, id, text),
            Request::Known(word) => accept(alloc, id, known(word)),
            Request::Ask(question) => {
                let text = self.answer_text(alloc, question)?;
                accept(alloc, id, text.as_bytes())
            }
            Request::BoardSize(number) => self.resize(id, number),
            Request::ClearBoard => {
                let size = self.present().board.size();
                self.clear(id, size)
            }
            Request::Komi(halves) => self.set_komi(id, halves),
            Request::Play(colour, wanted) => self.play(id, colour, wanted),
            // The engine loads files and asks the solver.
            Request::LoadSgf(_, _) => unreachable!(),
            Request::GenMove(_) => unreachable!(),
            Request::RegGenMove(_) => unreachable!(),
            Request::Analyse(_) => unreachable!(),
            Request::Undo => self.take_back(id),
            Request::FixedHandicap(number) => self.set_fixed(id, number),
            Request::FreeHandicap(words) => self.set_free(id, words),
            Request::Quit => accept(alloc, id, b""),
        }
    }
}
