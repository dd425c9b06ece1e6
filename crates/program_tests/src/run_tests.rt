//! What `solve`, `safe` and `trial` write, and words in and outside the grammar.

use crate::asserts::none_wrong;
use crate::endings::Ends;
use crate::files::TIE;
use crate::runs::{Row, first_wrong};

pub(crate) const TIE_TEXT: &str =
    "side black\npurse black 2\npurse white 2\nhalf none\nregions 0\npositions 0\nwinner white\nmove none\n";

pub(crate) const WHITE_TIE_TEXT: &str =
    "side white\npurse black 2\npurse white 2\nhalf none\nregions 0\npositions 0\nwinner black\nmove none\n";

pub(crate) const HALF_TEXT: &str =
    "side white\npurse black 2\npurse white 2\nhalf white\nregions 0\npositions 0\nwinner white\nmove half\n";

const PRISONER_TEXT: &str =
    "side black\npurse black 3\npurse white 2\nhalf none\nregions 0\npositions 0\nwinner black\nmove spend\n";

const CAPTIVE_TEXT: &str =
    "side black\npurse black 4\npurse white 2\nhalf none\nregions 0\npositions 0\nwinner black\nmove spend\n";

pub(crate) const ONE_POINT_TEXT: &str =
    "side black\npurse black 2\npurse white 2\nhalf none\nregions 1\n\
    region ea points 1 positions 3\npositions 3\nwinner black\nmove ea\n";

const WHITE_ONE_POINT_TEXT: &str =
    "side white\npurse black 2\npurse white 2\nhalf none\nregions 1\n\
    region ea points 1 positions 3\npositions 3\nwinner white\nmove ea\n";

const TWO_POINTS_TEXT: &str = "side black\npurse black 2\npurse white 2\nhalf none\nregions 1\n\
    region ea points 2 positions 9\npositions 9\nwinner white\nmove none\n";

const CORRIDOR_TEXT: &str = "side black\npurse black 2\npurse white 2\nhalf none\nregions 1\n\
    region eb points 2 positions 8\npositions 8\nwinner black\nmove fb\n";

const WHITE_CORRIDOR_TEXT: &str = "side white\npurse black 2\npurse white 2\nhalf none\nregions 1\n\
    region eb points 2 positions 8\npositions 8\nwinner black\nmove none\n";

const VISITED_TEXT: &str = "side black\npurse black 2\npurse white 2\nhalf none\nregions 1\n\
    region eb points 2 positions 4\npositions 4\nwinner black\nmove fb\n";

const WHITE_VISITED_TEXT: &str = "side white\npurse black 2\npurse white 2\nhalf none\nregions 1\n\
    region eb points 2 positions 4\npositions 4\nwinner white\nmove fb\n";

/// Black's stone at `fb` takes the white one at `eb`, and a new white one there takes it.
const CYCLE: &str = "fault cycle eb 1 black:fb white:eb black:fb\n";

const LONG_CORRIDOR_TEXT: &str = "side black\npurse black 2\npurse white 2\nhalf none\nregions 1\n\
    region eb points 3 positions 22\npositions 22\nwinner black\nmove eb\n";

pub(crate) const CAPTIVE_SAFE: &str =
    "chain ba white stones 1 open\nattack aa\nchain ca black stones 7 alive\nchain fa white stones 6 alive\n\
    counted aa black points 2 held 3\ncounted da black points 1 held 1\ncounted ga white points 1 held 1\n\
    counted ia white points 1 held 1\ngroups black 1\ngroups white 1\n";

pub(crate) const POINT_SAFE: &str = "chain ba black stones 7 alive\nchain fa white stones 6 alive\n\
    counted aa black points 1 held 1\ncounted ca black points 1 held 1\ncounted ga white points 1 held 1\n\
    counted ia white points 1 held 1\ngroups black 1\ngroups white 1\nregion ea points 1\n";

/// The board of 7.
pub(crate) const SEVEN_TEXT: &str =
    "trial 7\nregions 14\npositions 181\nshapes 3\nwinner black\nmove ib\n";

const NO_REGION_TEXT: &str =
    "trial 65536\nregions 0\npositions 0\nshapes 0\nwinner white\nmove none\n";

const WHITE_WINS_TEXT: &str =
    "trial 564787871\nregions 12\npositions 179\nshapes 3\nwinner white\nmove none\n";

const TWO_SHAPES_TEXT: &str =
    "trial 4294326608\nregions 12\npositions 194\nshapes 2\nwinner black\nmove hb\n";

/// Files of the shelf.
static SHELF_RUNS: [Row; 18] = [
    ("solve~a", b"", Ends::Done, TIE_TEXT),
    ("solve~a~--turn~white", b"", Ends::Done, WHITE_TIE_TEXT),
    (
        "solve~a~--turn~white~--komi~0.5",
        b"",
        Ends::Done,
        HALF_TEXT,
    ),
    (
        "solve~a~--komi~0~--black-prisoners~1",
        b"",
        Ends::Done,
        PRISONER_TEXT,
    ),
    ("solve~g", b"", Ends::Done, CAPTIVE_TEXT),
    ("solve~saved", b"", Ends::Done, HALF_TEXT),
    (
        "solve~saved~--komi~0~--turn~black",
        b"",
        Ends::Done,
        TIE_TEXT,
    ),
    ("solve~b", b"", Ends::Done, TWO_POINTS_TEXT),
    ("solve~b~--positions~9", b"", Ends::Done, TWO_POINTS_TEXT),
    (
        "solve~c~--turn~white",
        b"",
        Ends::Done,
        WHITE_ONE_POINT_TEXT,
    ),
    ("solve~d", b"", Ends::Done, CORRIDOR_TEXT),
    ("solve~d~--turn~white", b"", Ends::Done, WHITE_CORRIDOR_TEXT),
    ("solve~d~--parts~2", b"", Ends::Done, CORRIDOR_TEXT),
    ("solve~f", b"", Ends::Done, LONG_CORRIDOR_TEXT),
    ("solve~visited", b"", Ends::Done, VISITED_TEXT),
    (
        "solve~visited~--turn~white",
        b"",
        Ends::Done,
        WHITE_VISITED_TEXT,
    ),
    ("safe~g", b"", Ends::Done, CAPTIVE_SAFE),
    ("safe~c~--turn~white", b"", Ends::Done, POINT_SAFE),
];

#[test]
fn solves_files_of_the_shelf(rt: HostRuntime) {
    none_wrong(&rt, first_wrong(rt.alloc(), &SHELF_RUNS));
}

/// Regions past the limits, and one with a cycle.
static REGION_FAULTS: [Row; 3] = [
    (
        "solve~b~--positions~8",
        b"",
        Ends::RegionLimit,
        "fault region ea positions over 8\n",
    ),
    ("solve~d~--parts~1", b"", Ends::FormLimit, "fault form eb\n"),
    ("solve~e", b"", Ends::Cycle, CYCLE),
];

#[test]
fn answers_faults_of_regions(rt: HostRuntime) {
    none_wrong(&rt, first_wrong(rt.alloc(), &REGION_FAULTS));
}

/// Words in and outside the grammar, with a file in the source.
static WORDS: [Row; 15] = [
    ("", TIE, Ends::Usage, "fault usage\n"),
    ("solve", TIE, Ends::Usage, "fault usage\n"),
    ("solve~a~--komi~0.25", TIE, Ends::Usage, "fault usage\n"),
    (
        "solve~a~--turn~black~--turn~white",
        TIE,
        Ends::Usage,
        "fault usage\n",
    ),
    ("play~-", TIE, Ends::Usage, "fault usage\n"),
    ("mend~a", TIE, Ends::Usage, "fault usage\n"),
    ("play~nowhere", TIE, Ends::CannotRead, "fault cannot read\n"),
    ("safe~a~--parts~5", TIE, Ends::Usage, "fault usage\n"),
    ("trial~7", TIE, Ends::Done, SEVEN_TEXT),
    ("trial~0000000007", TIE, Ends::Done, SEVEN_TEXT),
    ("trial~65536", TIE, Ends::Done, NO_REGION_TEXT),
    ("trial~564787871", TIE, Ends::Done, WHITE_WINS_TEXT),
    ("trial~4294326608", TIE, Ends::Done, TWO_SHAPES_TEXT),
    ("trial~4294967296", TIE, Ends::Usage, "fault usage\n"),
    (
        "solve~nowhere",
        TIE,
        Ends::CannotRead,
        "fault cannot read\n",
    ),
];

#[test]
fn answers_words_by_their_grammar(rt: HostRuntime) {
    none_wrong(&rt, first_wrong(rt.alloc(), &WORDS));
}
