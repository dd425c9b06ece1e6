//! An assertion that the tests share: one that a test makes itself costs as much to prove each time.

use std::process::Abort;

/// No row of a table is wrong.
pub(crate) fn none_wrong(rt: &impl Abort, wrong: Option<usize>) {
    assert_eq!(rt; wrong, None);
}
