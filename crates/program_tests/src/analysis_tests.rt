//! What `board`, `margin`, `moves` and `line` write.

use crate::asserts::none_wrong;
use crate::endings::Ends;
use crate::files::COPY;
use crate::runs::{Row, first_wrong};

const TIE_BOARD: &str =
    "size 8 2\nside black\nkomi 0\nprisoners black 0\nprisoners white 0\nrow .X.XO.O.\nrow XXXXOOOO\n";

/// A captive was taken, and two passes followed.
const COPY_BOARD: &str =
    "size 9 2\nside white\nkomi 6.5\nprisoners black 1\nprisoners white 0\nrow .X.X.O.O.\nrow XXXXXOOOO\n";

const COPY_OPTIONS: &str =
    "size 9 2\nside black\nkomi -3.5\nprisoners black 8\nprisoners white 999999\nrow .X.X.O.O.\nrow XXXXXOOOO\n";

/// In a tie the player who moves loses.
const TIE_MARGIN: &str = "side black\nkomi 0\nwinner white\nblack first -0.5\nwhite first 0\n";

const CORRIDOR_MARGIN: &str = "side black\nkomi -0.5\nwinner black\nblack first 1\nwhite first 0\n";

const VISITED_MARGIN: &str = "side black\nkomi 0\nwinner black\nblack first 2\nwhite first -0.5\n";

const LONG_MARGIN: &str = "side white\nkomi 6.5\nwinner white\nblack first 2\nwhite first 1\n";

const TAX_MARGIN: &str = "side black\nkomi 0\nwinner black\nblack first 1.5\nwhite first 2\n";

const COPY_MARGIN: &str = "side white\nkomi 6.5\nwinner white\nblack first 1\nwhite first 0.5\n";

const CORRIDOR_MOVES: &str =
    "side black\nkomi 0\nwinner black\nstone eb loses -0.5\nstone fb wins 1\nspend loses\n";

const WHITE_MOVES: &str = "side white\nkomi 0.5\nwinner white\nstone eb loses 2\nstone fb wins 0\n\
    spend loses\nhalf loses\n";

const HALF_MOVES: &str = "side white\nkomi 0.5\nwinner white\nspend loses\nhalf wins\n";

const LONG_MOVES: &str = "side black\nkomi -1.5\nwinner black\nstone eb wins 0\nstone fb wins 0.5\n\
    stone gb wins 2\nspend wins\nhalf wins\n";

/// In a tie no region is hot.
const TIE_LINE: &str = "side black\nkomi 0\nwinner white\nthreshold -0.5\nline 0\n";

const CORRIDOR_LINE: &str = "side black\nkomi -0.5\nwinner black\nthreshold 1\nline 1 black:fb\n";

/// White goes in, and Black closes.
const WHITE_LINE: &str =
    "side white\nkomi 0\nwinner black\nthreshold 0\nline 2 white:fb black:eb\n";

const LONG_LINE: &str =
    "side white\nkomi 6.5\nwinner white\nthreshold 1\nline 2 white:gb black:fb\n";

/// A neutral point is hot.
const NEUTRAL_LINE: &str = "side black\nkomi 0\nwinner black\nthreshold 0\nline 1 black:ea\n";

const COPY_LINE: &str = "side white\nkomi 6.5\nwinner white\nthreshold 0.5\nline 1 white:ea\n";

/// Files of the shelf, and one of the source.
static RUNS: [Row; 30] = [
    ("board~a", b"", Ends::Done, TIE_BOARD),
    ("board~-", COPY, Ends::Done, COPY_BOARD),
    (
        "board~-~--turn~black~--komi~-3.5~--black-prisoners~7~--white-prisoners~999999",
        COPY,
        Ends::Done,
        COPY_OPTIONS,
    ),
    ("board~a~--positions~5", b"", Ends::Usage, "fault usage\n"),
    ("board~a~--tax~no", b"", Ends::Usage, "fault usage\n"),
    ("board~nobody", b"", Ends::CannotRead, "fault cannot read\n"),
    ("margin~a", b"", Ends::Done, TIE_MARGIN),
    ("margin~d~--komi~-0.5", b"", Ends::Done, CORRIDOR_MARGIN),
    ("margin~visited", b"", Ends::Done, VISITED_MARGIN),
    (
        "margin~f~--turn~white~--komi~6.5",
        b"",
        Ends::Done,
        LONG_MARGIN,
    ),
    ("margin~g~--tax~yes", b"", Ends::Done, TAX_MARGIN),
    ("margin~-", COPY, Ends::Done, COPY_MARGIN),
    (
        "margin~d~--positions~7",
        b"",
        Ends::RegionLimit,
        "fault region eb positions over 7\n",
    ),
    ("moves~d", b"", Ends::Done, CORRIDOR_MOVES),
    (
        "moves~d~--turn~white~--komi~0.5",
        b"",
        Ends::Done,
        WHITE_MOVES,
    ),
    (
        "moves~a~--turn~white~--komi~0.5",
        b"",
        Ends::Done,
        HALF_MOVES,
    ),
    ("moves~f~--komi~-1.5", b"", Ends::Done, LONG_MOVES),
    ("moves~d~--parts~1", b"", Ends::FormLimit, "fault form eb\n"),
    (
        "moves~e",
        b"",
        Ends::Cycle,
        "fault cycle eb 1 black:fb white:eb black:fb\n",
    ),
    ("moves~a~--as~black", b"", Ends::Usage, "fault usage\n"),
    ("line~a", b"", Ends::Done, TIE_LINE),
    ("line~d~--komi~-0.5", b"", Ends::Done, CORRIDOR_LINE),
    ("line~d~--turn~white", b"", Ends::Done, WHITE_LINE),
    ("line~f~--turn~white~--komi~6.5", b"", Ends::Done, LONG_LINE),
    (
        "line~c~--black-prisoners~5~--white-prisoners~5",
        b"",
        Ends::Done,
        NEUTRAL_LINE,
    ),
    ("line~-", COPY, Ends::Done, COPY_LINE),
    (
        "line~d~--positions~7",
        b"",
        Ends::RegionLimit,
        "fault region eb positions over 7\n",
    ),
    ("line~d~--parts~1", b"", Ends::FormLimit, "fault form eb\n"),
    (
        "line~e",
        b"",
        Ends::Cycle,
        "fault cycle eb 1 black:fb white:eb black:fb\n",
    ),
    ("line~a~--as~black", b"", Ends::Usage, "fault usage\n"),
];

#[test]
fn boards_margins_moves_and_lines(rt: HostRuntime) {
    none_wrong(&rt, first_wrong(rt.alloc(), &RUNS));
}
