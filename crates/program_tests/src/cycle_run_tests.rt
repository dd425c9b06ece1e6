//! Runs on files in whose regions kos can arise: with the option that admits cycles, and without it.

use crate::asserts::none_wrong;
use crate::endings::Ends;
use crate::run_tests::TIE_TEXT;
use crate::runs::{Row, first_wrong};

const NOBODY: &str = "side black\npurse black 2\npurse white 2\nhalf none\nregions 1\n\
    region eb points 2 positions 8\npositions 8\nwinner none\ncaptures none\nmove none\n";

const WHITE_WINS: &str = "side black\npurse black 2\npurse white 3\nhalf white\nregions 1\n\
    region eb points 2 positions 8\npositions 8\nwinner white\ncaptures 0\nmove none\n";

const BLACK_WINS: &str = "side black\npurse black 2\npurse white 2\nhalf black\nregions 1\n\
    region eb points 2 positions 8\npositions 8\nwinner black\ncaptures 0\nmove eb\n";

const WHITE_TAKES: &str = "side white\npurse black 2\npurse white 2\nhalf white\nregions 1\n\
    region eb points 2 positions 8\npositions 8\nwinner white\ncaptures 0\nmove fb\n";

static SOLUTIONS: [Row; 9] = [
    ("solve~e~--cycles~yes", b"", Ends::Done, NOBODY),
    (
        "solve~e~--komi~1.5~--cycles~yes",
        b"",
        Ends::Done,
        WHITE_WINS,
    ),
    (
        "solve~e~--cycles~yes~--komi~-0.5",
        b"",
        Ends::Done,
        BLACK_WINS,
    ),
    (
        "solve~e~--cycles~yes~--turn~white~--komi~0.5",
        b"",
        Ends::Done,
        WHITE_TAKES,
    ),
    (
        "solve~e~--positions~7~--cycles~yes",
        b"",
        Ends::RegionLimit,
        "fault region eb positions over 7\n",
    ),
    (
        "solve~e~--parts~1~--cycles~yes",
        b"",
        Ends::FormLimit,
        "fault form eb\n",
    ),
    ("solve~a~--cycles~no", b"", Ends::Done, TIE_TEXT),
    ("safe~e~--cycles~yes", b"", Ends::Usage, "fault usage\n"),
    ("line~e~--cycles~yes", b"", Ends::Usage, "fault usage\n"),
];

#[test]
fn tells_who_wins_where_kos_arise(rt: HostRuntime) {
    none_wrong(&rt, first_wrong(rt.alloc(), &SOLUTIONS));
}

const BOTH_VALUES: &str = "regions 1\nregion eb points 2 positions 8\nlow {*|-1}\nstops 0 -1\n\
    mean -1/2\ntemperature 1/2\nleft 0:0 1/2:-1/2\nright 0:-1 1/2:-1/2\nhigh {1|*}\nstops 1 0\n\
    mean 1/2\ntemperature 1/2\nleft 0:1 1/2:1/2\nright 0:0 1/2:1/2\n";

const BOTH_THRESHOLDS: &str =
    "side black\nkomi 0\nwinner none\nblack first -0.5 1\nwhite first -1.5 0\n";

const BLACKS_MOVES: &str = "side black\nkomi 0\nwinner none\nstone eb loses -0.5 -0.5\n\
    stone fb none -2.5 1\nspend loses\n";

const WHITES_MOVES: &str = "side white\nkomi 2\nwinner white\nstone eb none -1.5 2\n\
    stone fb wins 0 0\nspend none\n";

static ANALYSES: [Row; 5] = [
    ("values~e~--cycles~yes", b"", Ends::Done, BOTH_VALUES),
    ("margin~e~--cycles~yes", b"", Ends::Done, BOTH_THRESHOLDS),
    ("moves~e~--cycles~yes", b"", Ends::Done, BLACKS_MOVES),
    (
        "moves~e~--turn~white~--komi~2~--cycles~yes",
        b"",
        Ends::Done,
        WHITES_MOVES,
    ),
    (
        "moves~e",
        b"",
        Ends::Cycle,
        "fault cycle eb 1 black:fb white:eb black:fb\n",
    ),
];

#[test]
fn tells_what_moves_are_worth_where_kos_arise(rt: HostRuntime) {
    none_wrong(&rt, first_wrong(rt.alloc(), &ANALYSES));
}
