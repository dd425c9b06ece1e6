//! The engine with a shelf, a source and a sink in memory.

ghost use Rattle.std.specs.Prelude.{◌≡◌, ◌<◌, ◌≤◌};

use crate::files::{File, ONE_POINT, shelf_with};
use crate::runs::{Failing, Outside, sink, source};
use endgame_solver::Limits;
use gtp_engine::{Engine, EngineLimits, GtpEnd};
use local_play::Steps;
use std::alloc::{AllocError, Global};
use std::marker::Brand;
use std::sync::ledger::{Blank, Ledger};

/// A corridor of two points, where White gets half a point and moves.
const CORRIDOR: &[u8] =
    b"(;SZ[10:3]KM[0.5]PL[W]AB[ba][da:fa][ab:db][ac:fc]AW[ga][ia][gb:jb][gc:jc])";

/// Two stones of Black's and one of White's in atari, where Black gets half a point and moves.
const ATARI: &[u8] = b"(;SZ[10:5]KM[-0.5]AB[ba][da:fa][ab:db][ac:fc][ad:fd][hd:id][ae:fe]\
    AW[ga][ia][eb][gb:jb][gc:jc][jd][ge:je])";

/// The files of these tests.
static FILES: [File; 3] = [("c", ONE_POINT), ("corridor", CORRIDOR), ("atari", ATARI)];

/// A shelf with these files, a source that gives these lines in pieces of a size, and a sink.
pub(crate) fn room_for(
    alloc: Global,
    text: &[u8],
    piece: usize,
    failing: Failing,
) -> Result<Outside, AllocError>
    requires { 1 ≤ piece }
{
    let lines = source(alloc, text, piece, failing.read)?;
    let out = sink(alloc, 5_000, failing.write)?;
    let shelf = shelf_with(alloc, &FILES, failing.load)?;
    Ok(Outside { shelf, lines, out })
}

/// What a session comes to: its end, how many loads there were, how many of them failed, and the first that did.
#[derive(Clone, Copy)]
pub(crate) struct Session {
    pub end: GtpEnd,
    pub loads: u32,
    pub failed: usize,
    pub first_failed: Option<u32>,
}

/// What the session of an engine came to.
fn session_of(engine: &Engine, end: GtpEnd) -> Session {
    let loads = engine.loads();
    Session {
        end,
        loads: loads.count(),
        failed: loads.failures().len(),
        first_failed: loads.failures().first().copied(),
    }
}

/// What a session of a new engine over an outside comes to, whose steps a new ledger counts.
fn counted<L: Ledger>(alloc: Global, outside: &mut Outside, blank: Blank) -> Option<Session>
    requires name { blank.name ≡ L.name }
    requires parts { blank.parts ≡ L.parts }
    requires some { 0 < blank.parts }
{
    let limits = EngineLimits {
        game: Limits::new(100_000, 500)?,
        territory: false,
        cycles: false,
    };
    match Engine::new(alloc, limits) {
        Ok(mut engine) => {
            let end = engine.run(
                &mut outside.shelf,
                &mut outside.lines,
                &mut outside.out,
                &mut Steps::<L>::new(blank),
            );
            let session = session_of(&engine, end);
            // An engine is large: as a call its drop is one step of the proof.
            drop(engine);
            Some(session)
        }
        Err(_error) => None,
    }
}

/// What a session of a new engine over an outside comes to.
pub(crate) fn session_over(alloc: Global, outside: &mut Outside) -> Option<Session> {
    counted::<Brand>(alloc, outside, Blank::new(1))
}
