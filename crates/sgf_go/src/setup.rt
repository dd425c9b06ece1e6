//! The position at the end of a main line.

ghost use Rattle.std.specs.Prelude.{false, map, sum_by, get_or, [], ◌≡◌, ◌≤◌, ◌<◌, ◌+◌, ◌-◌, ◌⊎◌, ◌^◌, ◌*◌, true, length, take, Some, Err, IfSome, IfNone, IfOk, IfErr, codes};
ghost use Rattle.go_grid.specs.Board.{DeclaresNothing, IsClosedOff};
ghost use Rattle.std.specs.Char.{is_ascii_digit};
ghost use Rattle.std.specs.Option.{option_map};
ghost use Rattle.sgf_tree.specs.Reading.{property_text, node_text, line_text};
ghost use Rattle.sgf_tree.specs.declared.tree.Tree.{Tree};
ghost use Rattle.sgf_go.specs.Reading.{extent};
ghost use Rattle.sgf_go.specs.Komi.{IsInRange};
ghost use Rattle.go_play.specs.Setup.{HasFewPrisoners};
ghost use Rattle.sgf_go.specs.Values.{colon, Says, IsSide, IsSize};
ghost use Rattle.sgf_go.specs.inner.Values.{LacksColon};
ghost use Rattle.sgf_go.specs.Setup.{Counts, AnswersPosition, OnePosition, value_of, is_go, IsBoardSize, IsKomiFor, root, empty_board};
ghost use Rattle.sgf_go.specs.inner.Setup.{AnswersEnd, AnswersTerritory};

use crate::fault::{GoError, SetupFault};
use crate::komi::{read_komi, rest_of};
use crate::properties::value_of;
use crate::replay::Replay;
use crate::settings::{MOST_PRISONERS, Settings};
use go_grid::{Board, Colour, Size};
use go_play::Setup;
use sgf_tree::{MOST_BYTES, Node, Property, Tree};
use std::alloc::{AllocError, Global};

/// The number of a digit.
fn digit(byte: u8) -> Option<u8>
    ensures some { IfSome result (λ n. (is_ascii_digit byte ≡ true) × (n ≡ byte - 48)) }
    ensures none { IfNone result (is_ascii_digit byte ≡ false) }
{
    if byte.is_ascii_digit() {
        return Some(byte - b'0');
    }
    None
}

/// A number from 1 to 25.
fn in_range(number: u8) -> Option<u8>
    ensures some { IfSome result (λ n. (n ≡ number) × (1 ≤ n) × (n ≤ 25)) }
    ensures none { IfNone result ((number < 1) ⊎ (25 < number)) }
{
    if number < 1 || number > 25 {
        return None;
    }
    Some(number)
}

/// One or two digits, from 1 to 25.
#[tactic(auto, using(crate::proofs::SizeLemmas::side_one, crate::proofs::SizeLemmas::side_two, crate::proofs::SizeLemmas::not_digit, crate::proofs::SizeLemmas::far_one, crate::proofs::SizeLemmas::far_two))]
fn read_number(text: &[u8]) -> Option<u8>
    ensures value { Says (IsSide text.now) result }
    ensures range { IfSome result (λ n. (1 ≤ n) × (n ≤ 25)) }
{
    match text {
        [only] => in_range(digit(*only)?),
        [tens, ones] => {
            let tens = digit(*tens)?;
            let ones = digit(*ones)?;
            in_range(10 * tens + ones)
        }
        _ => None,
    }
}

/// Whether the file is of a game of Go.
fn is_go_game(properties: &[Property]) -> bool
    ensures { result ≡ is_go (value_of (codes "GM") (map property_text properties.now)) }
{
    match value_of(properties, b"GM") {
        None => true,
        Some(text) => text == b"1".as_slice(),
    }
}

/// The properties of node 0, or none where there is no node.
fn root(line: &[Node]) -> &[Property]
    ensures { map property_text result.now ≡ root (map node_text line.now) }
{
    match line.first() {
        Some(node) => node.properties.as_slice(),
        None => &[],
    }
}

/// The komi in half-points: the given one, or else that of KM, and 0 where there is none.
fn find_komi(given: Option<i64>, properties: &[Property]) -> Option<i64>
    requires { IfSome given IsInRange }
    ensures range { IfSome result IsInRange }
    ensures value { Says (IsKomiFor given (value_of (codes "KM")
        (map property_text properties.now))) result }
{
    if given.is_some() {
        return given;
    }
    match value_of(properties, b"KM") {
        None => Some(0),
        Some(text) => {
            if text.is_empty() {
                return Some(0);
            }
            read_komi(text)
        }
    }
}

/// An empty board, Black to move.
fn begin(alloc: Global, size: Size) -> Result<Replay, AllocError>
    ensures { IfOk result (λ s. s ≡ empty_board (extent size)) }
{
    Ok(Replay {
        board: Board::empty(alloc, size)?,
        black: 0,
        white: 0,
        side: Colour::Black,
        played: 0,
        last: None,
    })
}

/// The position at the end, where the board is settled.
#[tactic(auto, using(crate::proofs::UndeclaredLemmas::first_choked))]
fn finish(replay: Replay, settings: &Settings, komi: i64) -> Result<Setup, GoError>
    requires black_taken { replay.black ≤ 2 ^ 33 }
    requires white_taken { replay.white ≤ 2 ^ 33 }
    requires black { settings.now.black_prisoners ≤ MOST_PRISONERS }
    requires white { settings.now.white_prisoners ≤ MOST_PRISONERS }
    requires komi { IsInRange komi }
    requires closed { IsClosedOff replay.board }
    ensures answer { AnswersEnd settings.now komi replay result }
    ensures few { IfOk result HasFewPrisoners }
    ensures board { IfOk result (λ s. s.board ≡ replay.board) }
    ensures komi { IfOk result (λ s. s.komi_halves ≡ komi) }
{
    let side = match settings.turn {
        Some(turn) => turn,
        None => replay.side,
    };
    match Setup::new(
        replay.board,
        replay.black + settings.black_prisoners,
        replay.white + settings.white_prisoners,
        komi,
        side,
    ) {
        Ok(setup) => Ok(setup),
        Err(error) => Err(GoError::Fault(SetupFault::NoLiberty(error.of_board()?))),
    }
}

/// The position behind the line, with its territory.
fn finish_line(
    mut replay: Replay,
    settings: &Settings,
    line: &[Node],
    komi: i64,
) -> Result<Setup, GoError>
    requires counts { Counts replay }
    requires few { replay.played ≤ MOST_BYTES }
    requires last { IfSome replay.last (λ n. n < length line.now) }
    requires black { settings.now.black_prisoners ≤ MOST_PRISONERS }
    requires white { settings.now.white_prisoners ≤ MOST_PRISONERS }
    requires komi { IsInRange komi }
    requires undeclared { DeclaresNothing replay.board }
    ensures answer { AnswersTerritory settings.now (map node_text line.now) komi replay result }
    ensures few { IfOk result HasFewPrisoners }
    ensures undeclared { IfOk result (λ s. (settings.now.territory ≡ false)
        → DeclaresNothing s.board) }
    ensures komi { IfOk result (λ s. s.komi_halves ≡ komi) }
{
    replay.read_territory(settings.territory, line)?;
    finish(replay, settings, komi)
}

/// The place of the first `:`.
fn find_colon(text: &[u8]) -> Option<usize>
    ensures found { IfSome result (λ at. (at < length text.now) × (get_or text.now at 0 ≡ colon)
        × LacksColon text.now at) }
    ensures none { IfNone result (LacksColon text.now (length text.now)) }
{
    for at in 0..text.len() {
        if text[at] == b':' {
            return Some(at);
        }
    }
    None
}

/// The bytes before a place.
fn front_of(text: &[u8], end: usize) -> &[u8]
    requires { end ≤ length text.now }
    ensures { result.now ≡ take end text.now }
{
    &text[..end]
}

/// `n` or `columns:rows`.
#[tactic(auto, using(crate::proofs::SizeLemmas::square_only, crate::proofs::SizeLemmas::sides_only, crate::proofs::SizeLemmas::no_rows, crate::proofs::SizeLemmas::square_at, crate::proofs::SizeLemmas::sides_at))]
fn read_size(text: &[u8]) -> Option<Size>
    ensures { Says (IsSize text.now) (option_map extent result) }
{
    match find_colon(text) {
        None => {
            let side = read_number(text)?;
            Size::new(side, side)
        }
        Some(at) => {
            let columns = read_number(front_of(text, at))?;
            let rows = read_number(rest_of(text, at + 1))?;
            Size::new(columns, rows)
        }
    }
}

/// The size of the board, if it is one.
fn find_size(properties: &[Property]) -> Option<Size>
    ensures { Says (IsBoardSize (value_of (codes "SZ") (map property_text properties.now)))
        (option_map extent result) }
{
    match value_of(properties, b"SZ") {
        None => Size::new(19, 19),
        Some(text) => read_size(text),
    }
}

/// The size of the board that a record names by SZ of node 0, or none where that isn't a size.
pub fn size_of_board(tree: &Tree) -> Option<Size>
    ensures { Says (IsBoardSize (value_of (codes "SZ") (root (line_text tree.now))))
        (option_map extent result) }
{
    find_size(root(&tree.line))
}

/// What node 0 tells: the size of the board, and the komi in half-points.
#[derive(Clone, Copy)]
struct Header {
    size: Size,
    komi: i64,
}

/// What node 0 tells, or the first thing that is wrong with it: GM, SZ and KM in this order.
fn read_header(settings: &Settings, first: &[Property]) -> Result<Header, GoError>
    requires { IfSome settings.now.komi IsInRange }
    ensures header { IfOk result (λ h. (is_go (value_of (codes "GM")
        (map property_text first.now)) ≡ true)
        × Says (IsBoardSize (value_of (codes "SZ") (map property_text first.now)))
        (Some (extent h.size))
        × Says (IsKomiFor settings.now.komi (value_of (codes "KM") (map property_text first.now)))
        (Some h.komi) × IsInRange h.komi) }
    ensures fault { IfErr result (λ error. (tree : Tree) → root (line_text tree)
        ≡ map property_text first.now → AnswersPosition tree settings.now (Err error)) }
{
    if !is_go_game(first) {
        return Err(GoError::Fault(SetupFault::WrongGame));
    }
    let Some(size) = find_size(first) else {
        return Err(GoError::Fault(SetupFault::BadSize));
    };
    let Some(komi) = find_komi(settings.komi, first) else {
        return Err(GoError::Fault(SetupFault::BadKomi));
    };
    Ok(Header { size, komi })
}

/// The position at the end of the main line of a record (Smart Game Format, FF[4]) under the settings, or the first thing
/// that is wrong with it: GM, SZ and KM of node 0 in this order, then node by node AB, AW and AE, PL, and the moves, and at
/// the end the territory that TB and TW of the last node read mark, where the settings ask for it, and a stone without a
/// liberty. Without the option nothing is declared on its board.
pub fn position(alloc: Global, tree: &Tree, settings: &Settings) -> Result<Setup, GoError>
    requires nodes { length tree.now.line.items ≤ MOST_BYTES }
    requires properties { sum_by (λ n. length n.properties.items) tree.now.line.items ≤ MOST_BYTES }
    requires black { settings.now.black_prisoners ≤ MOST_PRISONERS }
    requires white { settings.now.white_prisoners ≤ MOST_PRISONERS }
    requires komi { IfSome settings.now.komi IsInRange }
    ensures answer { AnswersPosition tree.now settings.now result }
    ensures few { IfOk result HasFewPrisoners }
    ensures undeclared { IfOk result (λ s. (settings.now.territory ≡ false)
        → DeclaresNothing s.board) }
    ensures komi { IfOk result (λ s. IsInRange s.komi_halves) }
{
    let header = read_header(settings, root(&tree.line))?;
    let mut replay = begin(alloc, header.size)?;
    match replay.read_line(settings.after, settings.turn, &tree.line) {
        Ok(()) => finish_line(replay, settings, &tree.line, header.komi),
        Err(fault) => Err(GoError::Fault(fault)),
    }
}

/// A record and settings have at most one position or fault, so each answer of `position` comes exactly where its cause
/// holds.
#[tactic(auto, using(crate::proofs::OnePositionLemmas::one_position))]
pub fn one_position()
    ensures { OnePosition }
{}
