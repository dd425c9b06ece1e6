//! What the program has to say is out before the opponent's next line is waited for.

use crate::asserts::none_wrong;
use crate::endings::{Ends, is_ended};
use crate::files::shelf;
use crate::runs::{NEVER, status_of, words_between};
use desk_io::{Failed, MemoryShelf, Sink, Source};
use std::alloc::{AllocError, Global};
use std::cell::Cell;
use std::rc::Rc;

/// What is written before a line of the opponent's is read, and that line.
type Exchange = (&'static str, &'static str);

/// A source that fails where it is read before all that it answers is out, or after more.
#[derive(Drop)]
struct Opponent {
    /// How many bytes are out.
    out: Rc<Cell<usize>>,
    exchanges: &'static [Exchange],
    /// How many lines were given, and how many bytes were out then.
    given: usize,
    due: usize,
}

impl Source for Opponent {
    ghost use Rattle.std.specs.Prelude.{None, ◌^◌, ◌-◌};

    ghost left = { λ _. None };

    ghost faults = { λ _. 2 ^ 64 - 1 };

    fn read(&mut self, buf: &mut [u8]) -> Result<usize, Failed> {
        let Some((answer, line)) = self.exchanges.get(self.given) else {
            return Ok(0);
        };
        let due = self.due.saturating_add(answer.len());
        if self.out.get() != due {
            return Err(Failed);
        }
        self.given = self.given.saturating_add(1);
        self.due = due;
        let count = line.len().min(buf.len());
        buf[..count].copy_from_slice(&line.as_bytes()[..count]);
        Ok(count)
    }
}

/// A sink that counts its bytes.
#[derive(Drop)]
struct Hearer {
    out: Rc<Cell<usize>>,
}

impl Sink for Hearer {
    ghost use Rattle.std.specs.Prelude.{None};

    ghost holds = { λ _. None };

    ghost faults = { λ _. 0 };

    fn write(&mut self, bytes: &[u8]) -> Result<(), Failed> {
        self.out.set(self.out.get().saturating_add(bytes.len()));
        Ok(())
    }
}

/// Words, exchanges, the last of them with the end of the input, and what is written behind them.
type Talk = (&'static str, &'static [Exchange], &'static str);

static TALKS: [Talk; 3] = [
    (
        "play~c",
        &[
            ("engine ea\n", "half\n"),
            ("refused no half\n", "spend\n"),
            ("played spend\nengine spend\n", ""),
        ],
        "input ended\n",
    ),
    (
        "gtp",
        &[
            ("", "2 loadsgf c\n"),
            ("=2 \n\n", "genmove b\n"),
            ("= E2\n\n", "name\n"),
            ("= gdsolve\n\n", ""),
        ],
        "",
    ),
    (
        "gtp~--board~yes",
        &[
            ("", "loadsgf d\n"),
            ("= black\n\n", "reg_genmove b\n"),
            ("= F2\n\n", "name\n"),
            ("= gdsolve\n\n", ""),
        ],
        "",
    ),
];

/// An opponent who has given no line.
fn new_opponent(
    out: &Rc<Cell<usize>>,
    exchanges: &'static [Exchange],
) -> Result<Opponent, AllocError> {
    Ok(Opponent {
        out: Rc::clone(out)?,
        exchanges,
        given: 0,
        due: 0,
    })
}

/// Whether the run ends well, has read each line only behind what comes before it, and writes as much.
fn is_heard(
    alloc: Global,
    words: &[&str],
    shelf: &mut MemoryShelf,
    opponent: &mut Opponent,
    hearer: &mut Hearer,
    last: &str,
) -> bool {
    is_ended(status_of(alloc, words, shelf, opponent, hearer), Ends::Done)
        && opponent.given == opponent.exchanges.len()
        && hearer.out.get() == opponent.due.saturating_add(last.len())
}

/// The same with a hearer of its own.
fn is_answered(
    alloc: Global,
    words: &[&str],
    shelf: &mut MemoryShelf,
    opponent: &mut Opponent,
    last: &str,
) -> bool {
    match Rc::clone(&opponent.out) {
        Ok(out) => is_heard(alloc, words, shelf, opponent, &mut Hearer { out }, last),
        Err(_error) => false,
    }
}

/// The same with an opponent of its own.
fn is_talk(
    alloc: Global,
    words: &[&str],
    shelf: &mut MemoryShelf,
    out: &Rc<Cell<usize>>,
    row: &Talk,
) -> bool {
    match new_opponent(out, row.1) {
        Ok(mut opponent) => is_answered(alloc, words, shelf, &mut opponent, row.2),
        Err(_error) => false,
    }
}

/// The same with a count of its own.
fn is_counted(alloc: Global, words: &[&str], shelf: &mut MemoryShelf, row: &Talk) -> bool {
    match Rc::new(alloc, Cell::new(0)) {
        Ok(out) => is_talk(alloc, words, shelf, &out, row),
        Err(_error) => false,
    }
}

/// The same for the words of a row.
fn is_in_turn(alloc: Global, shelf: &mut MemoryShelf, row: &Talk) -> bool {
    match words_between(alloc, row.0) {
        Ok(words) => is_counted(alloc, &words, shelf, row),
        Err(_error) => false,
    }
}

/// The first row that isn't so, over a shelf that each run only reads.
fn first_wrong(alloc: Global, shelf: &mut MemoryShelf) -> Option<usize> {
    for (at, row) in TALKS.iter().enumerate() {
        if !is_in_turn(alloc, shelf, row) {
            return Some(at);
        }
    }
    None
}

/// The same over the shelf of the tests; the first row where there is no memory for it.
fn wrong_talk(alloc: Global) -> Option<usize> {
    match shelf(alloc, NEVER) {
        Ok(mut shelf) => first_wrong(alloc, &mut shelf),
        Err(_error) => Some(0),
    }
}

#[test]
fn each_answer_is_out_before_the_next_read(rt: HostRuntime) {
    none_wrong(&rt, wrong_talk(rt.alloc()));
}
