//! Games against every line of the opponent's.

use crate::endings::{Ends, is_ended};
use crate::runs::{NOTHING_FAILS, Outside, outside_of, status_over, words_between};
use std::alloc::{AllocError, Global};

/// Appends the lines of a list of tries, each by its number in a table.
fn append_lines(lines: &mut Vec<u8>, table: &[&[u8]], tries: &[usize]) -> Result<(), AllocError> {
    for number in tries {
        if let Some(line) = table.get(*number) {
            lines.extend_from_slice(line)?;
        }
    }
    Ok(())
}

/// The next list of so many tries that doesn't begin with this one, or the empty one.
fn go_on(tries: &mut Vec<usize>, most: usize) -> Result<(), AllocError> {
    for _ in 0..tries.len() {
        let next = tries.pop().map_or(most, |last| last.saturating_add(1));
        if next < most {
            return Ok(tries.push(next)?);
        }
    }
    Ok(())
}

/// What a game over the lines of some tries comes to: a try is refused, another one is wanted, the engine wins, or neither.
#[derive(Clone, Copy)]
enum Told {
    Refused,
    Open,
    Won,
    Otherwise,
}

/// Whether a line of the text begins so.
pub(crate) fn has_line(text: &[u8], beginning: &[u8]) -> bool {
    text.windows(beginning.len().max(1))
        .any(|place| place == beginning)
}

/// What the text of a game tells.
fn told_by(text: &[u8], winner: &[u8]) -> Told {
    if has_line(text, b"refused") {
        return Told::Refused;
    }
    if has_line(text, b"input ended") {
        return Told::Open;
    }
    if has_line(text, winner) {
        return Told::Won;
    }
    Told::Otherwise
}

/// What a game over an outside comes to.
fn told_over(alloc: Global, words: &[&str], outside: &mut Outside, winner: &[u8]) -> Told {
    if is_ended(status_over(alloc, words, outside), Ends::Done) {
        return told_by(outside.out.written(), winner);
    }
    Told::Otherwise
}

/// What a game over these lines comes to.
fn told_of(alloc: Global, words: &[&str], lines: &[u8], winner: &[u8]) -> Told {
    match outside_of(alloc, lines, 7, 5_000, NOTHING_FAILS) {
        Ok(mut outside) => {
            let told = told_over(alloc, words, &mut outside, winner);
            drop(outside);
            told
        }
        Err(_error) => Told::Otherwise,
    }
}

/// What a game over the lines of the tries comes to, which are appended to others.
fn told_with(
    alloc: Global,
    words: &[&str],
    table: &[&[u8]],
    winner: &[u8],
    tries: &[usize],
    lines: &mut Vec<u8>,
) -> Told {
    if append_lines(lines, table, tries) == Ok(()) {
        return told_of(alloc, words, lines, winner);
    }
    Told::Otherwise
}

/// Goes on to the next list of tries, one longer where another one is wanted.
fn go_on_with(tries: &mut Vec<usize>, told: Told, most: usize) -> Result<(), AllocError> {
    match told {
        Told::Open => Ok(tries.push(0)?),
        _ => go_on(tries, most),
    }
}

/// How many games are played to their end against all lines of the tries.
fn won_from(
    alloc: Global,
    words: &[&str],
    table: &[&[u8]],
    winner: &[u8],
    tries: &mut Vec<usize>,
) -> Option<usize> {
    let mut games = 0_usize;
    for _ in 0..5_000 {
        let told = told_with(alloc, words, table, winner, tries, &mut Vec::new(alloc));
        match told {
            Told::Otherwise => return None,
            Told::Won => games = games.saturating_add(1),
            _ => {}
        }
        if go_on_with(tries, told, table.len()) != Ok(()) {
            return None;
        }
        if tries.is_empty() {
            return Some(games);
        }
    }
    None
}

/// How many games are played to their end against all lines of the tries, each of which the engine wins; or nothing where one
/// is lost, or a game is left.
pub(crate) fn games_won(
    alloc: Global,
    words: &str,
    table: &[&[u8]],
    winner: &[u8],
) -> Option<usize> {
    match words_between(alloc, words) {
        Ok(words) => won_from(alloc, &words, table, winner, &mut Vec::new(alloc)),
        Err(_error) => None,
    }
}
