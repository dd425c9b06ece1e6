//! Assertions that the tests share: one that a test makes itself costs as much to prove each time.

use std::process::Abort;

/// No row of a table is wrong.
pub(crate) fn none_wrong(rt: &impl Abort, wrong: Option<usize>) {
    assert_eq!(rt; wrong, None);
}

/// No row is wrong, of none of several tables.
pub(crate) fn nowhere_wrong(rt: &impl Abort, wrong: Option<(usize, usize)>) {
    assert_eq!(rt; wrong, None);
}

/// So many games were won.
pub(crate) fn all_won(rt: &impl Abort, games: Option<usize>, wanted: usize) {
    assert_eq!(rt; games, Some(wanted));
}
