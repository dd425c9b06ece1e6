//! Runs over shelves, sources and sinks in memory.

ghost use Rattle.std.specs.Prelude.{◌≡◌, ◌<◌, ◌≤◌};

use crate::endings::{Ends, is_ended};
use crate::files::shelf;
use desk_io::{MemoryShelf, MemorySink, MemorySource, Sink, Source};
use endgame_run::{Status, run};
use local_play::Steps;
use std::alloc::{AllocError, Global};
use std::marker::Brand;
use std::sync::ledger::{Blank, Ledger};

/// The calls that fail, each by its number.
#[derive(Clone, Copy)]
pub(crate) struct Failing {
    pub load: u64,
    pub read: u64,
    pub write: u64,
}

/// The number of no call.
pub(crate) const NEVER: u64 = u64::MAX;

pub(crate) const NOTHING_FAILS: Failing = Failing {
    load: NEVER,
    read: NEVER,
    write: NEVER,
};

/// A shelf, a source and a sink in memory.
#[derive(Drop)]
pub(crate) struct Outside {
    pub shelf: MemoryShelf,
    pub lines: MemorySource,
    pub out: MemorySink,
}

/// A source that gives a file in pieces of a size, and whose read of this number fails.
pub(crate) fn source(
    alloc: Global,
    file: &[u8],
    piece: usize,
    failing: u64,
) -> Result<MemorySource, AllocError>
    requires { 1 ≤ piece }
{
    let bytes = file.to_vec(alloc)?;
    let failing = vec![in alloc; failing]?;
    Ok(MemorySource::new(bytes, piece, failing))
}

/// A sink with room for so many bytes, whose write of this number fails.
pub(crate) fn sink(alloc: Global, room: usize, failing: u64) -> Result<MemorySink, AllocError> {
    let failing = vec![in alloc; failing]?;
    MemorySink::with_room(alloc, room, failing)
}

/// The shelf of the tests, a source that gives this file in pieces of a size, and a sink with room for so many bytes.
pub(crate) fn outside_of(
    alloc: Global,
    file: &[u8],
    piece: usize,
    room: usize,
    failing: Failing,
) -> Result<Outside, AllocError>
    requires { 1 ≤ piece }
{
    let lines = source(alloc, file, piece, failing.read)?;
    let out = sink(alloc, room, failing.write)?;
    let shelf = shelf(alloc, failing.load)?;
    Ok(Outside { shelf, lines, out })
}

/// What a run over these things ends with, whose steps a new ledger counts.
fn counted<L: Ledger, S: Source, K: Sink>(
    alloc: Global,
    words: &[&str],
    shelf: &mut MemoryShelf,
    lines: &mut S,
    out: &mut K,
    blank: Blank,
) -> Status
    requires name { blank.name ≡ L.name }
    requires parts { blank.parts ≡ L.parts }
    requires some { 0 < blank.parts }
{
    run(alloc, words, shelf, lines, out, &mut Steps::<L>::new(blank))
}

/// What a run over these things ends with.
pub(crate) fn status_of<S: Source, K: Sink>(
    alloc: Global,
    words: &[&str],
    shelf: &mut MemoryShelf,
    lines: &mut S,
    out: &mut K,
) -> Status {
    counted::<Brand, S, K>(alloc, words, shelf, lines, out, Blank::new(1))
}

/// What a run over an outside ends with.
pub(crate) fn status_over(alloc: Global, words: &[&str], outside: &mut Outside) -> Status {
    status_of(
        alloc,
        words,
        &mut outside.shelf,
        &mut outside.lines,
        &mut outside.out,
    )
}

/// The words between the tildes of a text. An empty text has none.
pub(crate) fn words_between(alloc: Global, text: &str) -> Result<Vec<&str>, AllocError> {
    let mut words = Vec::new(alloc);
    if !text.is_empty() {
        add_words(text, &mut words)?;
    }
    Ok(words)
}

/// Adds the words between the tildes of a text.
fn add_words<'a>(text: &'a str, words: &mut Vec<&'a str>) -> Result<(), AllocError> {
    for word in text.split('~') {
        words.push(word)?;
    }
    Ok(())
}

/// Whether a run over an outside ends so, and what is written begins so.
pub(crate) fn begins_so(
    alloc: Global,
    words: &[&str],
    outside: &mut Outside,
    ends: Ends,
    beginning: &[u8],
) -> bool {
    let status = status_over(alloc, words, outside);
    is_ended(status, ends) && outside.out.written().starts_with(beginning)
}

/// Whether a run over an outside ends and writes so.
pub(crate) fn is_so(
    alloc: Global,
    words: &[&str],
    outside: &mut Outside,
    ends: Ends,
    text: &[u8],
) -> bool {
    let status = status_over(alloc, words, outside);
    is_ended(status, ends) && outside.out.written() == text
}

/// Whether a run over the shelf of the tests and this file, in pieces of a size, ends and writes so.
pub(crate) fn are_right(
    alloc: Global,
    words: &[&str],
    file: &[u8],
    piece: usize,
    room: usize,
    failing: Failing,
    ends: Ends,
    text: &[u8],
) -> bool
    requires { 1 ≤ piece }
{
    match outside_of(alloc, file, piece, room, failing) {
        Ok(mut outside) => {
            let right = is_so(alloc, words, &mut outside, ends, text);
            drop(outside);
            right
        }
        Err(_error) => false,
    }
}

/// The same for the words between tildes.
pub(crate) fn is_right_in_pieces(
    alloc: Global,
    words: &str,
    file: &[u8],
    piece: usize,
    room: usize,
    failing: Failing,
    ends: Ends,
    text: &[u8],
) -> bool
    requires { 1 ≤ piece }
{
    match words_between(alloc, words) {
        Ok(words) => are_right(alloc, &words, file, piece, room, failing, ends, text),
        Err(_error) => false,
    }
}

/// The same in pieces of seven bytes.
pub(crate) fn is_right(
    alloc: Global,
    words: &str,
    file: &[u8],
    room: usize,
    failing: Failing,
    ends: Ends,
    text: &[u8],
) -> bool {
    is_right_in_pieces(alloc, words, file, 7, room, failing, ends, text)
}

/// The words of a run, the file of the source, how the run ends and what is written.
pub(crate) type Row = (&'static str, &'static [u8], Ends, &'static str);

/// Whether a row is so.
fn is_row(alloc: Global, row: &Row) -> bool {
    is_right(
        alloc,
        row.0,
        row.1,
        500,
        NOTHING_FAILS,
        row.2,
        row.3.as_bytes(),
    )
}

/// The first row that isn't so.
pub(crate) fn first_wrong(alloc: Global, rows: &[Row]) -> Option<usize> {
    for (at, row) in rows.iter().enumerate() {
        if !is_row(alloc, row) {
            return Some(at);
        }
    }
    None
}

/// A row with the room of the sink and the calls that fail.
pub(crate) type FailingRow = (
    &'static str,
    &'static [u8],
    usize,
    Failing,
    Ends,
    &'static str,
);

/// Whether such a row is so.
fn is_failing_row(alloc: Global, row: &FailingRow) -> bool {
    is_right(alloc, row.0, row.1, row.2, row.3, row.4, row.5.as_bytes())
}

/// The first such row that isn't so.
pub(crate) fn first_failing_wrong(alloc: Global, rows: &[FailingRow]) -> Option<usize> {
    for (at, row) in rows.iter().enumerate() {
        if !is_failing_row(alloc, row) {
            return Some(at);
        }
    }
    None
}
