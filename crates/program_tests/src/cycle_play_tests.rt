//! Games and sessions of the engine where kos can arise.

use crate::asserts::{all_won, none_wrong};
use crate::endings::Ends;
use crate::every_line::games_won;
use crate::runs::{FailingRow, NOTHING_FAILS, first_failing_wrong};

/// Words, lines, and what is written.
static SESSIONS: [FailingRow; 9] = [
    (
        "play~k",
        b"spend\n",
        500,
        NOTHING_FAILS,
        Ends::Cycle,
        "fault cycle ea 0 black:fa white:ea\n",
    ),
    (
        "play~k~--cycles~yes",
        b"spend\nspend\nspend\nea\nspend\n",
        500,
        NOTHING_FAILS,
        Ends::Done,
        "engine spend\nplayed spend\nengine spend\nplayed spend\nengine spend\nrefused empty purse\nrefused occupied\n\
            refused empty purse\ninput ended\n",
    ),
    (
        "play~k~--komi~2~--as~white~--cycles~yes",
        b"fa\nfa\nspend\nfa\nspend\nfa\nfa\nspend\nfa\nspend\n",
        500,
        NOTHING_FAILS,
        Ends::Done,
        "played fa\nengine ea\nplayed fa\nengine ea\nplayed spend\nengine fa\nrefused occupied\nplayed spend\nengine spend\n\
            refused occupied\nrefused occupied\nplayed spend\nengine spend\nrefused occupied\nplayed spend\nengine spend\n\
            winner white\n",
    ),
    (
        "play~e~--cycles~yes",
        b"eb\nfb\nspend\nspend\neb\nfb\nspend\n",
        500,
        NOTHING_FAILS,
        Ends::Done,
        "engine fb\nplayed eb\nengine fb\nrefused occupied\nplayed spend\nengine eb\nplayed spend\nengine spend\n\
            refused occupied\nrefused occupied\nplayed spend\nengine spend\nwinner black\n",
    ),
    (
        "play~e~--positions~7~--cycles~yes",
        b"eb\n",
        500,
        NOTHING_FAILS,
        Ends::RegionLimit,
        "fault region eb positions over 7\n",
    ),
    (
        "gtp",
        b"loadsgf e\ngenmove b\nquit\n",
        500,
        NOTHING_FAILS,
        Ends::Done,
        "= \n\n? cannot solve\n\n= \n\n",
    ),
    (
        "gtp~--cycles~yes",
        b"loadsgf e\ngenmove b\ngenmove w\ngenmove b\ngenmove w\nquit\n",
        500,
        NOTHING_FAILS,
        Ends::Done,
        "= \n\n= F2\n\n= E2\n\n= F2\n\n= E2\n\n= \n\n",
    ),
    (
        "gtp~--cycles~yes",
        b"loadsgf k\ngenmove b\nplay w pass\ngenmove b\nplay w pass\ngenmove b\nplay w E3\ngenmove b\ngenmove w\n\
            genmove b\ngenmove w\ngenmove b\nquit\n",
        500,
        NOTHING_FAILS,
        Ends::Done,
        "= \n\n= pass\n\n= \n\n= pass\n\n= \n\n= pass\n\n? illegal move\n\n? not in turn\n\n= F3\n\n= pass\n\n\
            = resign\n\n? not in turn\n\n= \n\n",
    ),
    (
        "gtp~--cycles~yes~--positions~7",
        b"loadsgf e\ngenmove b\nquit\n",
        500,
        NOTHING_FAILS,
        Ends::Done,
        "= \n\n? cannot solve\n\n= \n\n",
    ),
];

#[test]
fn plays_where_kos_arise(rt: HostRuntime) {
    none_wrong(&rt, first_failing_wrong(rt.alloc(), &SESSIONS));
}

/// What the opponent may try on the board with one ko.
static KO_TRIES: [&[u8]; 4] = [b"ea\n", b"fa\n", b"spend\n", b"half\n"];

/// What the opponent may try on the board with two.
static KOS_TRIES: [&[u8]; 6] = [b"ea\n", b"fa\n", b"ec\n", b"fc\n", b"spend\n", b"half\n"];

#[test]
fn wins_against_every_line_where_kos_arise(rt: HostRuntime) {
    let alloc = rt.alloc();
    let one = games_won(alloc, "play~k~--cycles~yes", &KO_TRIES, b"winner black");
    all_won(&rt, one, 3);
    let words = "play~kos~--komi~-3~--cycles~yes";
    all_won(
        &rt,
        games_won(alloc, words, &KOS_TRIES, b"winner black"),
        12,
    );
    let words = "play~kos~--komi~2~--as~white~--cycles~yes";
    all_won(
        &rt,
        games_won(alloc, words, &KOS_TRIES, b"winner white"),
        12,
    );
}
