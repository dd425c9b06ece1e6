//! Sessions of the engine against every line of the opponent's.

use crate::engine_rooms::{room_for, session_over};
use crate::runs::{NOTHING_FAILS, Outside};
use std::alloc::{AllocError, Global};

/// Whether a session over an outside writes so at its end, or want of memory.
fn writes_last(alloc: Global, outside: &mut Outside, last: &[u8]) -> Result<bool, AllocError> {
    match session_over(alloc, outside) {
        Some(_session) => Ok(outside.out.written().ends_with(last)),
        None => Err(AllocError),
    }
}

/// The same of a session over lines.
fn is_last(alloc: Global, lines: &[u8], last: &[u8]) -> Result<bool, AllocError> {
    match room_for(alloc, lines, 500, NOTHING_FAILS) {
        Ok(mut outside) => {
            let right = writes_last(alloc, &mut outside, last);
            drop(outside);
            right
        }
        Err(error) => Err(error),
    }
}

/// Appends a line, made of parts.
fn append_line(lines: &mut Vec<u8>, parts: &[&[u8]]) -> Result<(), AllocError> {
    for part in parts {
        lines.extend_from_slice(part)?;
    }
    lines.extend_from_slice(b"\n")
}

/// The lines of a session with one more, made of parts.
fn with_line(alloc: Global, lines: &[u8], parts: &[&[u8]]) -> Result<Vec<u8>, AllocError> {
    let mut all = lines.to_vec(alloc)?;
    append_line(&mut all, parts)?;
    Ok(all)
}

/// Whether the engine takes the opponent's move that the last of the sessions ends with.
fn is_taken(alloc: Global, open: &[Vec<u8>]) -> Result<bool, AllocError> {
    match open.last() {
        Some(lines) => is_last(alloc, lines, b"\n\n= \n\n"),
        None => Ok(false),
    }
}

/// Adds the lines with one more.
fn add_lines(
    alloc: Global,
    lines: &[u8],
    parts: &[&[u8]],
    open: &mut Vec<Vec<u8>>,
) -> Result<(), AllocError> {
    let all = with_line(alloc, lines, parts)?;
    Ok(open.push(all)?)
}

/// Adds the lines with a move of the opponent's behind them, where the engine takes it.
fn add_answer(
    alloc: Global,
    lines: &[u8],
    parts: &[&[u8]],
    open: &mut Vec<Vec<u8>>,
) -> Result<(), AllocError> {
    add_lines(alloc, lines, parts, open)?;
    if !is_taken(alloc, open)? {
        let _refused = open.pop();
    }
    Ok(())
}

/// The columns and the rows of the points that the opponent tries.
static COLUMNS: [&[u8]; 10] = [b"a", b"b", b"c", b"d", b"e", b"f", b"g", b"h", b"j", b"k"];

static NUMBERS: [&[u8]; 5] = [b"1", b"2", b"3", b"4", b"5"];

/// Adds the lines with each stone of the opponent's in a row behind them that the engine takes.
fn add_row(
    alloc: Global,
    turn: &[u8],
    play: &[u8],
    number: &[u8],
    open: &mut Vec<Vec<u8>>,
) -> Result<(), AllocError> {
    for column in &COLUMNS {
        add_answer(alloc, turn, &[play, column, number], open)?;
    }
    Ok(())
}

/// Adds the lines with each move of the opponent's behind them that the engine takes.
fn add_answers(
    alloc: Global,
    turn: &[u8],
    play: &[u8],
    open: &mut Vec<Vec<u8>>,
) -> Result<(), AllocError> {
    for number in &NUMBERS {
        add_row(alloc, turn, play, number, open)?;
    }
    add_answer(alloc, turn, &[play, b"pass"], open)?;
    add_answer(alloc, turn, &[play, b"half"], open)
}

/// What a turn of the engine's comes to: it resigns, the game is over, or the opponent has moves.
#[derive(Clone, Copy)]
enum Turn {
    Resigned,
    Over,
    Open,
}

/// Adds what the opponent may answer to a turn of the engine's.
fn answer_turn(
    alloc: Global,
    turn: &[u8],
    play: &[u8],
    open: &mut Vec<Vec<u8>>,
) -> Result<Turn, AllocError> {
    if is_last(alloc, turn, b"resign\n\n")? {
        return Ok(Turn::Resigned);
    }
    let before = open.len();
    add_answers(alloc, turn, play, open)?;
    if open.len() == before {
        return Ok(Turn::Over);
    }
    Ok(Turn::Open)
}

/// The words by which the engine and the opponent play.
#[derive(Clone, Copy)]
pub(crate) struct Words<'a> {
    pub generate: &'a [u8],
    pub play: &'a [u8],
}

/// Lets the engine play behind the lines, and adds what the opponent may answer.
fn take_turn(
    alloc: Global,
    lines: &[u8],
    words: Words<'_>,
    open: &mut Vec<Vec<u8>>,
) -> Result<Turn, AllocError> {
    let turn = with_line(alloc, lines, &[words.generate])?;
    answer_turn(alloc, &turn, words.play, open)
}

/// The same behind the last of the sessions, which is taken out, if there is one.
fn take_last(alloc: Global, words: Words<'_>, open: &mut Vec<Vec<u8>>) -> Result<Turn, AllocError> {
    match open.pop() {
        Some(lines) => take_turn(alloc, &lines, words, open),
        None => Ok(Turn::Resigned),
    }
}

/// How many games are played to their end from the sessions, or nothing where the engine once resigns or a game is left.
fn won_from(alloc: Global, words: Words<'_>, open: &mut Vec<Vec<u8>>) -> Option<usize> {
    let mut games = 0_usize;
    for _ in 0..100 {
        if open.is_empty() {
            return Some(games);
        }
        match take_last(alloc, words, open) {
            Ok(Turn::Over) => games = games.saturating_add(1),
            Ok(Turn::Open) => {}
            _ => return None,
        }
    }
    None
}

/// The same from a session of one line, which is added to none.
fn won_after(
    alloc: Global,
    load: &[u8],
    words: Words<'_>,
    open: &mut Vec<Vec<u8>>,
) -> Option<usize> {
    if add_lines(alloc, b"", &[load], open) != Ok(()) {
        return None;
    }
    won_from(alloc, words, open)
}

/// How many games are played to their end from a session of one line, or nothing where the engine once resigns or a game is left.
pub(crate) fn games_won(alloc: Global, load: &[u8], words: Words<'_>) -> Option<usize> {
    won_after(alloc, load, words, &mut Vec::new(alloc))
}
