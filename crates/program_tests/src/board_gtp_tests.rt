//! Sessions of the engine that keeps a board.

use crate::asserts::none_wrong;
use crate::endings::Ends;
use crate::runs::{Failing, FailingRow, NOTHING_FAILS, first_failing_wrong};

/// A corridor of two points: the engine closes it where it may, passes cost points, and moves are taken back.
const PLAYED: &[u8] =
    b"1 loadsgf d\nreg_genmove b\nplay w F2\n2 genmove b\ngenmove w\ngenmove b\ngenmove w\ngenmove b\ngenmove w\n\
    play w pass\ngenmove b\nundo\nundo 0\nmove_history\nlist_stones w\n";

const PLAYED_TEXT: &str =
    "=1 black\n\n= F2\n\n= \n\n=2 E2\n\n= PASS\n\n= PASS\n\n= PASS\n\n= PASS\n\n= resign\n\n= \n\n\
    ? cannot solve: purse\n\n= \n\n= \n\n= white PASS\nblack PASS\nwhite PASS\nblack E2\nwhite F2\n\n\
    = G3 J3 F2 G2 H2 J2 K2 G1 H1 J1 K1\n\n";

/// A capture on an empty board, in any order of colours, and what stands then.
const PLACED: &[u8] =
    b"boardsize 3\nplay w a1\nplay b a2\nplay b b1\nlist_stones w\ncaptures b\nplay b a1\nplay w a1\nshowboard\n\
    undo\nundo\ncaptures b\nquery_boardsize\nkomi -0.50\nget_komi\nlevel 1\nquit\nname\n";

const PLACED_TEXT: &str = "= \n\n= \n\n= \n\n= \n\n= \n\n= 1\n\n= \n\n? illegal move\n\n\
    = \n   A B C\n 3 . . . 3\n 2 X . . 2\n 1 X X . 1\n   A B C\nblack prisoners 1\nwhite prisoners 0\nkomi 0\n\n\
    = \n\n= \n\n= 0\n\n= 3\n\n= \n\n= -0.5\n\n= \n\n= \n\n";

/// What keeps a position from being solved, and orders that don't fit.
const REFUSED: &[u8] =
    b"genmove b\nloadsgf e\ngenmove w\nloadsgf nothing\nundo\nundo x\nset_free_handicap A1\nfixed_handicap 1\n\
    play b half\ngenmove\nloadsgf d 0\nloadsgf saved 2\nhalf\nknown_command reg_genmove\n";

const REFUSED_TEXT: &str =
    "? cannot solve: region A19 points 361\n\n= black\n\n? cannot solve: cycle E2 1 black:F2 white:E2 black:F2\n\n\
    ? cannot load file\n\n? cannot undo\n\n? syntax error\n\n? syntax error\n\n? board not empty\n\n\
    ? syntax error\n\n? syntax error\n\n= black\n\n= white\n\n? unknown command\n\n= true\n\n";

/// Kos: on the first board nobody wins until White passes, on the second the engine doesn't take back for ever, and where no ko can arise
/// all is as without them.
const KOS: &[u8] =
    b"loadsgf e\nreg_genmove b\ngenmove b\ngenmove w\ngenmove b\nplay w pass\ngenmove b\ncaptures b\nplay w pass\n\
    genmove b\nloadsgf k\ngenmove b\ngenmove w\nundo\nmove_history\nloadsgf d\ngenmove b\ngenmove w\nplay w pass\n\
    play w pass\ngenmove b\n";

const KOS_TEXT: &str =
    "= black\n\n= F2\n\n= F2\n\n= E2\n\n= F2\n\n= \n\n= E2\n\n= 1\n\n= \n\n= PASS\n\n= black\n\n= PASS\n\n= F3\n\n\
    = \n\n= black PASS\n\n= black\n\n= F2\n\n= PASS\n\n= \n\n= \n\n? cannot solve: purse\n\n";

/// Analyses, with points as the protocol names them: of a corridor of two points, when it is closed and White has passed, with another komi, and of a captive.
const ANALYSED: &[u8] =
    b"loadsgf d\ntop_moves_black\n7 gdsolve-margin b\ngdsolve-moves b\ngdsolve-line w\nfinal_score\nfinal_status_list alive\n\
    play b F2\nplay w pass\nestimate_score\ntop_moves_white\nkomi 6.5\nfinal_score\ngdsolve-moves w\nkomi 2\nfinal_score\nloadsgf g\n\
    final_status_list dead\nfinal_status_list seki\n";

const ANALYSED_TEXT: &str =
    "= black\n\n= F2 1 E2 -0.5\n\n=7 side black\nkomi 0\nwinner black\nblack first 1\nwhite first 0\n\n\
    = side black\nkomi 0\nwinner black\nstone E2 loses -0.5\nstone F2 wins 1\nspend loses\n\n\
    = side white\nkomi 0\nwinner black\nthreshold 0\nline 2 white:F2 black:E2\n\n? cannot score: play left at F2\n\n\
    = B3 D3 E3 F3 G3 J3 A2 B2 C2 D2 G2 H2 J2 K2 A1 B1 C1 D1 E1 F1 G1 H1 J1 K1\n\n= \n\n= \n\n= B+2\n\n= \n\n= \n\n= W+4.5\n\n\
    = side white\nkomi 6.5\nwinner white\nspend wins\nhalf wins\n\n= \n\n= 0\n\n= black\n\n= B2\n\n= \n\n";

/// Analyses where kos can arise: margin and moves are told with them; the best stones, the line of play and the score are not.
const KOS_ANALYSED: &[u8] =
    b"loadsgf k\ngdsolve-margin b\n3 gdsolve-moves b\ngdsolve-moves w\ngdsolve-line b\ntop_moves_black\nfinal_score\n\
    play b pass\ngdsolve-margin w\nloadsgf e\ngdsolve-moves w\nloadsgf d\ngdsolve-moves b\nboardsize 9\ngdsolve-moves b\n";

const KOS_ANALYSED_TEXT: &str =
    "= black\n\n= side black\nkomi -3\nwinner black\nblack first -1.5 2\nwhite first -1 -0.5\n\n\
    =3 side black\nkomi -3\nwinner black\nstone F3 wins -1.5 2\nspend wins\n\n\
    = side white\nkomi -3\nwinner black\nstone F3 loses -0.5 -0.5\nspend loses\n\n\
    ? cannot solve: cycle E3 0 black:F3 white:E3\n\n? cannot solve: cycle E3 0 black:F3 white:E3\n\n\
    ? cannot score: cycle E3 0 black:F3 white:E3\n\n= \n\n\
    = side white\nkomi -3\nwinner black\nblack first -2.5 1\nwhite first -2 -1.5\n\n= black\n\n\
    = side white\nkomi 0\nwinner none\nstone E2 none -1.5 2\nstone F2 loses 0 0\nspend loses\n\n= black\n\n\
    = side black\nkomi 0\nwinner black\nstone E2 loses -0.5 -0.5\nstone F2 wins 1 1\nspend loses\n\n= \n\n\
    ? cannot solve: region A9 points 81\n\n";

/// Analyses that don't fit, of a position without a game, and what GoGui is offered.
const UNFIT: &[u8] =
    b"top_moves_black b\ngdsolve-margin\nfinal_status_list x\nfinal_score\ngdsolve-line w\nloadsgf e\ntop_moves_white\nfinal_score\n\
    known_command final_score\ngogui-analyze_commands\n";

const UNFIT_TEXT: &str =
    "? syntax error\n\n? syntax error\n\n? syntax error\n\n? cannot score: region A19 points 361\n\n\
    ? cannot solve: region A19 points 361\n\n= black\n\n? cannot solve: cycle E2 1 black:F2 white:E2 black:F2\n\n\
    ? cannot score: cycle E2 1 black:F2 white:E2 black:F2\n\n= true\n\n\
    = pspairs/Best stones of Black/top_moves_black\npspairs/Best stones of White/top_moves_white\n\
    string/Margin/gdsolve-margin %c\nstring/Moves/gdsolve-moves %c\nstring/Line of play/gdsolve-line %c\nstring/Score/final_score\n\
    plist/Stones that live/final_status_list alive\nplist/Stones that are dead/final_status_list dead\n\n";

const NO_FIRST_LOAD: Failing = Failing {
    load: 0,
    ..NOTHING_FAILS
};

const NO_SECOND_READ: Failing = Failing {
    read: 1,
    ..NOTHING_FAILS
};

static SESSIONS: [FailingRow; 11] = [
    (
        "gtp~--board~yes",
        PLAYED,
        2_000,
        NOTHING_FAILS,
        Ends::Done,
        PLAYED_TEXT,
    ),
    (
        "gtp~--board~yes",
        PLACED,
        2_000,
        NOTHING_FAILS,
        Ends::Done,
        PLACED_TEXT,
    ),
    (
        "gtp~--board~yes",
        ANALYSED,
        2_000,
        NOTHING_FAILS,
        Ends::Done,
        ANALYSED_TEXT,
    ),
    (
        "gtp~--board~yes",
        UNFIT,
        2_000,
        NOTHING_FAILS,
        Ends::Done,
        UNFIT_TEXT,
    ),
    (
        "gtp~--board~yes~--cycles~yes",
        KOS_ANALYSED,
        2_000,
        NOTHING_FAILS,
        Ends::Done,
        KOS_ANALYSED_TEXT,
    ),
    (
        "gtp~--board~yes",
        REFUSED,
        2_000,
        NOTHING_FAILS,
        Ends::Done,
        REFUSED_TEXT,
    ),
    (
        "gtp~--board~yes",
        b"loadsgf d\nloadsgf d\n",
        500,
        NO_FIRST_LOAD,
        Ends::Done,
        "? cannot load file\n\n= black\n\n",
    ),
    (
        "gtp~--board~yes",
        b"2 name\nversion\n",
        500,
        NO_SECOND_READ,
        Ends::CannotRead,
        "=2 gdsolve\n\nfault cannot read\n",
    ),
    (
        "gtp~--board~yes~--positions~1",
        b"loadsgf d\ngenmove b\n",
        500,
        NOTHING_FAILS,
        Ends::Done,
        "= black\n\n? cannot solve: region E2 positions over 1\n\n",
    ),
    (
        "gtp~--board~yes~--cycles~yes",
        KOS,
        2_000,
        NOTHING_FAILS,
        Ends::Done,
        KOS_TEXT,
    ),
    (
        "gtp~--cycles~yes~--board~yes~--positions~1",
        b"genmove w\nloadsgf d\ngenmove b\n",
        500,
        NOTHING_FAILS,
        Ends::Done,
        "? cannot solve: region A19 points 361\n\n= black\n\n? cannot solve: region E2 positions over 1\n\n",
    ),
];

#[test]
fn keeps_a_board(rt: HostRuntime) {
    none_wrong(&rt, first_failing_wrong(rt.alloc(), &SESSIONS));
}
