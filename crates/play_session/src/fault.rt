//! What stops a session from outside.

/// Which side of the outside failed.
#[derive(Clone, Copy)]
pub(crate) enum Fault {
    Read,
    Write,
}
