//! Games with a tax of two points for each group.

use crate::asserts::none_wrong;
use crate::endings::Ends;
use crate::run_tests::TIE_TEXT;
use crate::runs::{Row, first_wrong};

/// `.X.XO.O.OX.X.` / `XXXXOOOOOXXXX`: Black has two groups.
const TWO_GROUPS: &[u8] = b"(;SZ[13:2]AB[ba][da][ab:db][ja][la][jb:mb]AW[ea][ga][ia][eb:ib])";

const UNTAXED_TEXT: &str =
    "side black\npurse black 4\npurse white 2\nhalf none\nregions 0\npositions 0\n\
    winner black\nmove spend\n";

const TAXED_TEXT: &str =
    "side black\npurse black 0\npurse white 0\nhalf none\nregions 0\npositions 0\n\
    winner white\nmove none\n";

const CAPTIVE_TEXT: &str =
    "side black\npurse black 2\npurse white 0\nhalf none\nregions 0\npositions 0\n\
    winner black\nmove spend\n";

/// `.X.X.`: two chains, linked by the point between them.
const LINKED: &[u8] = b"(;SZ[5:1]AB[ba][da])";

const LINKED_TEXT: &str =
    "side black\npurse black 1\npurse white 0\nhalf none\nregions 0\npositions 0\n\
    winner black\nmove spend\n";

const LINKED_SAFE: &str = "chain ba black stones 1 alive\nchain da black stones 1 alive\n\
    counted aa black points 1 held 1\ncounted ca black points 1 held 1\n\
    counted ea black points 1 held 1\ngroups black 1\ngroups white 0\n";

/// Positions with and without the tax.
static TAXED: [Row; 10] = [
    ("solve~a~--tax~no", b"", Ends::Done, TIE_TEXT),
    ("solve~a~--tax~yes", b"", Ends::Done, TAXED_TEXT),
    ("solve~g~--tax~yes", b"", Ends::Done, CAPTIVE_TEXT),
    ("solve~-", TWO_GROUPS, Ends::Done, UNTAXED_TEXT),
    ("solve~-~--tax~yes", TWO_GROUPS, Ends::Done, TAXED_TEXT),
    ("solve~-~--tax~yes", LINKED, Ends::Done, LINKED_TEXT),
    (
        "play~c~--tax~yes",
        b"",
        Ends::Done,
        "engine ea\nwinner black\n",
    ),
    ("safe~-", LINKED, Ends::Done, LINKED_SAFE),
    ("solve~a~--tax~2", b"", Ends::Usage, "fault usage\n"),
    ("safe~a~--tax~yes", b"", Ends::Usage, "fault usage\n"),
];

#[test]
fn groups_pay_at_the_start(rt: HostRuntime) {
    none_wrong(&rt, first_wrong(rt.alloc(), &TAXED));
}
