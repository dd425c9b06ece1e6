//! The values of files.

use crate::asserts::none_wrong;
use crate::endings::Ends;
use crate::runs::{Row, first_wrong};

/// Two points that are worth nothing to who moves first.
const NOTHING: &str =
    "regions 1\nregion ea points 2 positions 9\nvalue 0\nstops 0 0\nmean 0\ntemperature none\n\
    left 0:0\nright 0:0\n";

/// A corridor of two points, open to White.
const CORRIDOR: &str =
    "regions 1\nregion eb points 2 positions 8\nvalue {1|*}\nstops 1 0\nmean 1/2\ntemperature 1/2\n\
    left 0:1 1/2:1/2\nright 0:0 1/2:1/2\n";

/// The corridor with a white stone inside.
const VISITED: &str =
    "regions 1\nregion eb points 2 positions 4\nvalue {2|0}\nstops 2 0\nmean 1\ntemperature 1\n\
    left 0:2 1:1\nright 0:0 1:1\n";

/// A corridor of three points, open to White.
const LONG_CORRIDOR: &str =
    "regions 1\nregion eb points 3 positions 22\nvalue {2|{1|*}}\nstops 2 1\nmean 5/4\ntemperature 3/4\n\
    left 0:2 3/4:5/4\nright 0:1 1/2:1 3/4:5/4\n";

/// One point without a liberty for any stone.
const SINGLE: &str =
    "regions 1\nregion aa points 1 positions 1\nvalue 0\nstops 0 0\nmean 0\ntemperature none\n\
    left 0:0\nright 0:0\n";

/// Values of the regions of files.
static VALUES: [Row; 10] = [
    ("values~a", b"", Ends::Done, "regions 0\n"),
    ("values~b", b"", Ends::Done, NOTHING),
    ("values~d", b"", Ends::Done, CORRIDOR),
    ("values~d~--parts~2~--turn~white", b"", Ends::Done, CORRIDOR),
    ("values~visited", b"", Ends::Done, VISITED),
    ("values~f", b"", Ends::Done, LONG_CORRIDOR),
    ("values~-", b"(;SZ[1])", Ends::Done, SINGLE),
    (
        "values~b~--positions~8",
        b"",
        Ends::RegionLimit,
        "fault region ea positions over 8\n",
    ),
    (
        "values~d~--parts~1",
        b"",
        Ends::FormLimit,
        "fault form eb\n",
    ),
    (
        "values~e",
        b"",
        Ends::Cycle,
        "fault cycle eb 1 black:fb white:eb black:fb\n",
    ),
];

#[test]
fn values_of_files(rt: HostRuntime) {
    none_wrong(&rt, first_wrong(rt.alloc(), &VALUES));
}
