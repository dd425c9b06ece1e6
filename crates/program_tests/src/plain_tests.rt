//! Winners, against plain recursion.

use crate::asserts::nowhere_wrong;
use crate::every_line::has_line;
use crate::files::{CAPTIVE, TIE, TWO_POINTS, VISITED};
use crate::plain_solved_tests::has_room;
use crate::runs::{NOTHING_FAILS, Outside, outside_of, status_over};
use go_grid::Colour;
use sgf_go::{Setup, position};
use std::alloc::{AllocError, Global};
use whole_rules::{Whole, plain_winner};

/// The position that the words name on this file, if they name one.
fn setup_of(alloc: Global, words: &[&str], file: &[u8]) -> Option<Setup> {
    if file.len() > 1_048_576 {
        return None;
    }
    let Ok(job) = gd_words::read(words) else {
        return None;
    };
    let Ok(tree) = sgf_tree::read(alloc, file) else {
        return None;
    };
    match position(alloc, &tree, &job.settings) {
        Ok(setup) => Some(setup),
        Err(_error) => None,
    }
}

/// The state in which it opens, without a tax.
fn opening_of(alloc: Global, setup: &Setup) -> Result<Whole, AllocError> {
    Whole::opening(
        alloc,
        setup.board(),
        setup.black_prisoners(),
        setup.white_prisoners(),
        setup.komi_halves(),
        setup.side(),
        false,
    )
}

/// The winner that plain recursion to twenty plies gives.
fn winner_of(alloc: Global, state: &Whole) -> Option<Colour> {
    if !has_room(state) {
        return None;
    }
    match plain_winner(alloc, state, 20) {
        Ok(winner) => winner,
        Err(_error) => None,
    }
}

/// The line of a winner.
fn line_of(winner: Option<Colour>) -> &'static [u8] {
    match winner {
        Some(Colour::Black) => b"\nwinner black\n",
        Some(Colour::White) => b"\nwinner white\n",
        None => b"no winner",
    }
}

/// The line of the winner that plain recursion gives.
fn line_from(alloc: Global, setup: &Setup) -> &'static [u8] {
    match opening_of(alloc, setup) {
        Ok(state) => line_of(winner_of(alloc, &state)),
        Err(_error) => line_of(None),
    }
}

/// The same for the words on this file.
fn plain_line(alloc: Global, words: &[&str], file: &[u8]) -> &'static [u8] {
    match setup_of(alloc, words, file) {
        Some(setup) => line_from(alloc, &setup),
        None => line_of(None),
    }
}

/// Whether a run over an outside writes a line.
fn writes(alloc: Global, words: &[&str], outside: &mut Outside, line: &[u8]) -> bool {
    let _status = status_over(alloc, words, outside);
    has_line(outside.out.written(), line)
}

/// Whether a run on this file writes the winner that plain recursion gives for its words.
fn is_winner(alloc: Global, words: &[&str], file: &[u8]) -> bool {
    match outside_of(alloc, file, 7, 200, NOTHING_FAILS) {
        Ok(mut outside) => {
            let right = writes(alloc, words, &mut outside, plain_line(alloc, words, file));
            drop(outside);
            right
        }
        Err(_error) => false,
    }
}

static FILES: [&[u8]; 6] = [
    TIE,
    CAPTIVE,
    b"(;SZ[5:1]AB[ba][da])",
    b"(;SZ[3:1]AW[ba])",
    TWO_POINTS,
    VISITED,
];

static KOMIS: [&str; 6] = ["0", "0.5", "-0.5", "1", "-1.5", "2.5"];

/// The first komi with which a run on this file doesn't write the winner.
fn wrong_komi(alloc: Global, file: &[u8], side: &str) -> Option<usize> {
    for (at, komi) in KOMIS.iter().enumerate() {
        let words = ["solve", "-", "--turn", side, "--komi", *komi];
        if !is_winner(alloc, &words, file) {
            return Some(at);
        }
    }
    None
}

/// The first file of which some run doesn't, and the komi.
fn wrong_file(alloc: Global, side: &str) -> Option<(usize, usize)> {
    for (at, file) in FILES.iter().enumerate() {
        if let Some(komi) = wrong_komi(alloc, file, side) {
            return Some((at, komi));
        }
    }
    None
}

#[test]
fn the_winner_is_that_of_plain_recursion(rt: HostRuntime) {
    nowhere_wrong(&rt, wrong_file(rt.alloc(), "black"));
    nowhere_wrong(&rt, wrong_file(rt.alloc(), "white"));
}
