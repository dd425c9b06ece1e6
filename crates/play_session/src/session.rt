//! The session.

ghost use Rattle.std.specs.Prelude.{◌≡◌, ◌≢◌, ◌↔◌, ◌⊎◌, ◌+◌, ◌≤◌, ◌<◌, ◌++◌, List, ℕ, [], true, codes, length, IfOk, OnErr, IfSome, IsErrOf, Ok, Some, None};
ghost use Rattle.desk_io.specs.Outside.{Appends, HasCause, Rose};
ghost use Rattle.go_grid.specs.Board.{other};
ghost use Rattle.board_words.specs.Words.{winner_line};
ghost use Rattle.whole_rules.specs.FirstWinningMove.{IsWinner};
ghost use Rattle.whole_rules.specs.WholeGame.{IsFirstMove};
ghost use Rattle.play_session.specs.declared.fault.Fault.TheVariants.{Read, Write};
ghost use Rattle.play_session.specs.declared.end.SessionEnd.TheVariants.{Won, Lost, InputEnded, ReadFault, WriteFault};
ghost use Rattle.desk_io.specs.Lines.{IsSameInput};
ghost use Rattle.desk_io.specs.Lines.{UsesLines};
ghost use Rattle.endgame_solver.specs.Solved.{HasMove};
ghost use Rattle.engine_player.specs.Room.{CanTake};
ghost use Rattle.play_session.specs.Session.{AnswersOpponent, EngineMoves, IsToAnswer, input_line};
ghost use Rattle.whole_rules.specs.Moves.{IsMoveOnBoard};
ghost use Rattle.play_session.specs.Written.{Played, standing};
ghost use Rattle.play_session.specs.inner.Written.{Causes, MovesOrStays, IsNatural, IsPlayedTo, IsPossible, IsRequested, TurnWritten, WriteCauses, turns_left};

use crate::end::SessionEnd;
use crate::fault::Fault;
use crate::replies::{move_line, refusal, word_line};
use crate::reply::Reply;
use crate::words::asked_move;
use board_words::colour_word;
use desk_io::{Failed, LineReader, MOST_LINES, Sink, Source};
use engine_player::Player;
use go_grid::{Board, Colour};
use std::marker::Model;
use whole_rules::Move;

/// The most bytes of a line.
pub(crate) const MOST_BYTES: usize = 256;

/// The most turns of one run: two for each line, and one of the engine's at either end.
pub const MOST_TURNS: usize = 20_002;

/// What the opponent's line asks for.
#[derive(Drop)]
pub(crate) enum Request {
    /// There is no line: the input is at its end.
    Ended,
    /// A line, and the move that it names, if it names one.
    Line(Option<Move>),
}

/// Writes a line.
fn say<K: Sink>(out: &mut K, line: &Reply) -> Result<(), Fault>
    ensures bytes { Appends (K.holds out.old) (K.holds out.new) result line.now }
    ensures cause { WriteCauses (K.faults out.old) (K.faults out.new) result }
{
    match out.write(line.as_slice()) {
        Ok(()) => Ok(()),
        Err(_) => Err(Fault::Write),
    }
}

/// Writes who won, with which the session ends.
fn end_game<K: Sink>(
    winner: Colour,
    engine: Colour,
    out: &mut K,
) -> Result<Option<SessionEnd>, Fault>
    ensures bytes { Appends (K.holds out.old) (K.holds out.new) result (winner_line winner) }
    ensures end { IfOk result (λ end. ((end ≡ Some Won) × (winner ≡ engine))
        ⊎ ((end ≡ Some Lost) × (winner ≡ other engine))) }
    ensures cause { WriteCauses (K.faults out.old) (K.faults out.new) result }
{
    match say(out, &word_line("winner", colour_word(winner).as_bytes())) {
        Err(fault) => return Err(fault),
        Ok(()) => {}
    }
    if winner.is(engine) {
        return Ok(Some(SessionEnd::Won));
    }
    Ok(Some(SessionEnd::Lost))
}

/// Writes that the input is at its end, with which the session ends.
fn end_input<K: Sink>(out: &mut K) -> Result<Option<SessionEnd>, Fault>
    ensures bytes { Appends (K.holds out.old) (K.holds out.new) result input_line }
    ensures end { IfOk result (λ end. end ≡ Some InputEnded) }
    ensures cause { WriteCauses (K.faults out.old) (K.faults out.new) result }
{
    match say(out, &word_line("input", b"ended")) {
        Err(fault) => return Err(fault),
        Ok(()) => {}
    }
    Ok(Some(SessionEnd::InputEnded))
}

/// Makes the engine's move and writes it.
fn move_engine<K: Sink>(player: &mut Player, out: &mut K) -> Result<(), Fault>
    requires movable { HasMove player.old.state }
    requires room { CanTake 1 player.old }
    ensures moved { (text : List ℕ) × EngineMoves player.old text player.new
        × Appends (K.holds out.old) (K.holds out.new) result text }
    ensures room { (n : ℕ) → CanTake (n + 1) player.old → CanTake n player.new }
    ensures cause { WriteCauses (K.faults out.old) (K.faults out.new) result }
{
    let Some(chosen) = player.choose() else {
        // The side to move has a move.
        unreachable!()
    };
    let line = move_line("engine", player.whole().board().size(), &chosen);
    player.make(chosen);
    say(out, &line)
}

/// Answers what a line asks for.
fn answer<K: Sink>(player: &mut Player, asked: Option<Move>, out: &mut K) -> Result<(), Fault>
    requires on_board { IfSome asked (IsMoveOnBoard player.old.state.board.columns
        player.old.state.board.rows) }
    requires room { CanTake 1 player.old }
    ensures answered { (text : List ℕ)
        × AnswersOpponent player.old asked text player.new
        × Appends (K.holds out.old) (K.holds out.new) result text }
    ensures room { (n : ℕ) → CanTake (n + 1) player.old → CanTake n player.new }
    ensures cause { WriteCauses (K.faults out.old) (K.faults out.new) result }
{
    let Some(chosen) = asked else {
        return say(out, &word_line("refused", b"line"));
    };
    let played = move_line("played", player.whole().board().size(), &chosen);
    match player.play(chosen) {
        Ok(()) => say(out, &played),
        Err(error) => say(out, &refusal(error)),
    }
}

/// Takes a line of the input.
pub(crate) fn take_request<S: Source>(
    input: &mut LineReader<MOST_BYTES>,
    board: &Board,
    lines: &mut S,
) -> Result<Request, Failed>
    ensures requested { (bytes : List ℕ) → S.left lines.old ≡ Some bytes
        → IfOk result (λ request. IsRequested board.now (input.old ++ bytes) request input.new
        (S.left lines.new)) }
    ensures on_board { IfOk result (IsPossible board.now) }
    ensures same { OnErr result (IsSameInput input.old (S.left lines.old) input.new
        (S.left lines.new)) }
    ensures used { UsesLines 256 0 1 input.old (S.left lines.old) input.new (S.left lines.new) }
    ensures few { length input.new ≤ 256 }
    ensures cause { HasCause (S.faults lines.old) (S.faults lines.new) result }
{
    let Some(found) = input.find_line(lines)? else {
        return Ok(Request::Ended);
    };
    let asked = asked_move(board, input.front(found.line));
    input.drop_front(found.taken);
    Ok(Request::Line(asked))
}

/// A game between the engine and whoever writes the lines. Contracts see the game, the engine's colour, and the bytes
/// that were read and not yet used.
#[derive(Drop)]
pub struct Session {
    player: Player,
    engine: Colour,
    input: LineReader<MOST_BYTES>,
}

impl Model for Session {
    ghost use Rattle.std.specs.Prelude.{◌≤◌, length};
    ghost use Rattle.play_session.specs.Written.{Session};

    ghost Value = { Session };

    ghost view = { λ s. record { game = s.player; engine = s.engine; held = s.input } };

    ghost invariant = { λ s. length s.input ≤ 256 };
}

impl Session {
    /// A session that hasn't read anything.
    pub fn new(player: Player, engine: Colour) -> Session
        ensures { result ≡ record { game = player; engine = engine; held = [] } }
    {
        Session {
            player,
            engine,
            input: LineReader::new(),
        }
    }

    /// The opponent's turn.
    fn opponent_turn<S: Source, K: Sink>(
        &mut self,
        read: &mut usize,
        lines: &mut S,
        out: &mut K,
    ) -> Result<Option<SessionEnd>, Fault>
        requires turn { IsToAnswer self.old.engine self.old.game.state }
        requires few { read.old ≤ MOST_LINES }
        requires few_held { length self.old.held ≤ 256 }
        requires room { CanTake 1 self.old.game }
        ensures engine { self.new.engine ≡ self.old.engine }
        ensures room { (n : ℕ) → CanTake (n + 1) self.old.game → CanTake n self.new.game }
        ensures written { (bytes : List ℕ) → S.left lines.old ≡ Some bytes
            → TurnWritten self.old.engine (standing self.old read.old bytes) (K.holds out.old)
            (K.holds out.new) result self.new read.new (S.left lines.new) }
        ensures used { UsesLines 256 read.old read.new self.old.held (S.left lines.old)
            self.new.held (S.left lines.new) }
        ensures few_held { length self.new.held ≤ 256 }
        ensures few_read { read.new ≤ MOST_LINES }
        ensures stepped { MovesOrStays self.old.game.state self.new.game.state }
        ensures counted { result ≡ Ok None → (read.old < MOST_LINES) × (read.new ≡ read.old + 1) }
        ensures never_lost { result ≢ Ok (Some Lost) }
        ensures natural { IfOk result (λ end. IfSome end IsNatural) }
        ensures cause { Causes (S.faults lines.old) (S.faults lines.new) (K.faults out.old)
            (K.faults out.new) result }
    {
        if *read == MOST_LINES {
            return Ok(Some(SessionEnd::TooManyLines));
        }
        let asked = match take_request(&mut self.input, self.player.whole().board(), lines) {
            Err(_) => return Err(Fault::Read),
            Ok(Request::Ended) => return end_input(out),
            Ok(Request::Line(asked)) => asked,
        };
        *read += 1;
        match answer(&mut self.player, asked, out) {
            Err(fault) => return Err(fault),
            Ok(()) => {}
        }
        Ok(None)
    }

    /// One turn, or the end where the side to move has no move or no line is left to be read.
    fn turn<S: Source, K: Sink>(
        &mut self,
        read: &mut usize,
        lines: &mut S,
        out: &mut K,
    ) -> Result<Option<SessionEnd>, Fault>
        requires few { read.old ≤ MOST_LINES }
        requires room { CanTake 1 self.old.game }
        ensures engine { self.new.engine ≡ self.old.engine }
        ensures room { (n : ℕ) → CanTake (n + 1) self.old.game → CanTake n self.new.game }
        ensures written { (bytes : List ℕ) → S.left lines.old ≡ Some bytes
            → TurnWritten self.old.engine (standing self.old read.old bytes) (K.holds out.old)
            (K.holds out.new) result self.new read.new (S.left lines.new) }
        ensures used { UsesLines 256 read.old read.new self.old.held (S.left lines.old)
            self.new.held (S.left lines.new) }
        ensures few_held { length self.new.held ≤ 256 }
        ensures few_read { read.new ≤ MOST_LINES }
        ensures keeps { IsWinner self.old.game.state self.old.engine
            → IsWinner self.new.game.state self.old.engine × (result ≢ Ok (Some Lost)) }
        ensures fewer { result ≡ Ok None
            → (turns_left self.new read.new < turns_left self.old read.old) }
        ensures natural { IfOk result (λ end. IfSome end IsNatural) }
        ensures cause { Causes (S.faults lines.old) (S.faults lines.new) (K.faults out.old)
            (K.faults out.new) result }
    {
        let side = self.player.whole().side();
        match self.player.whole().first_move() {
            None => return end_game(side.other(), self.engine, out),
            Some(_) => {}
        }
        if !side.is(self.engine) {
            return self.opponent_turn(read, lines, out);
        }
        match move_engine(&mut self.player, out) {
            Err(fault) => return Err(fault),
            Ok(()) => {}
        }
        Ok(None)
    }

    /// Plays turn by turn.
    fn turns<S: Source, K: Sink>(&mut self, lines: &mut S, out: &mut K) -> Result<SessionEnd, Fault>
        requires room { CanTake MOST_TURNS self.old.game }
        ensures engine { self.new.engine ≡ self.old.engine }
        ensures written { (bytes : List ℕ) → S.left lines.old ≡ Some bytes
            → IsPlayedTo self.old.engine (standing self.old 0 bytes) (K.holds out.old)
            (K.holds out.new) result self.new (S.left lines.new) }
        ensures used { UsesLines 256 0 MOST_LINES self.old.held (S.left lines.old) self.new.held
            (S.left lines.new) }
        ensures few_held { length self.new.held ≤ 256 }
        ensures keeps { IsWinner self.old.game.state self.old.engine → result ≢ Ok Lost }
        ensures natural { IfOk result IsNatural }
        ensures cause { Causes (S.faults lines.old) (S.faults lines.new) (K.faults out.old)
            (K.faults out.new) result }
    {
        let mut read = 0;
        'turns: loop {
            match self.turn(&mut read, lines, out) {
                Err(fault) => return Err(fault),
                Ok(Some(end)) => return Ok(end),
                Ok(None) => {}
            }
        }
    }

    /// Plays the session to its end, from the state as it stands. The bytes that count are those that the session holds
    /// unread, at most 256, and then those that the source has left; 10,000 lines are read at most in this call. Where the
    /// source tells its bytes, the text of the session was written. Where a read failed it is all turns up to the one whose
    /// line was to be read, and where a write failed all turns before that line and a front part of it. Where kos are admitted the
    /// purses must have room for what so many turns pay in.
    pub fn run<S: Source, K: Sink>(&mut self, lines: &mut S, out: &mut K) -> SessionEnd
        requires room { CanTake MOST_TURNS self.old.game }
        ensures text { (bytes : List ℕ) → S.left lines.old ≡ Some bytes
            → Played self.old.engine (standing self.old 0 bytes) (K.holds out.old)
            (K.holds out.new) result self.new (S.left lines.new) }
        ensures used { UsesLines 256 0 MOST_LINES self.old.held (S.left lines.old) self.new.held
            (S.left lines.new) }
        ensures few_held { length self.new.held ≤ 256 }
        ensures read_fault { result ≡ ReadFault → Rose (S.faults lines.old) (S.faults lines.new) }
        ensures write_fault { result ≡ WriteFault → Rose (K.faults out.old) (K.faults out.new) }
        ensures reads_later { S.faults lines.old ≤ S.faults lines.new }
        ensures writes_later { K.faults out.old ≤ K.faults out.new }
        ensures keeps_win { IsWinner self.old.game.state self.old.engine → result ≢ Lost }
        ensures engine { self.new.engine ≡ self.old.engine }
    {
        match self.turns(lines, out) {
            Ok(end) => end,
            Err(Fault::Read) => SessionEnd::ReadFault,
            Err(Fault::Write) => SessionEnd::WriteFault,
        }
    }
}
