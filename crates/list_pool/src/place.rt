//! Where a list lies.

/// A list's chunk, the number in it at which the list begins, and how many numbers the list has.
#[derive(Clone, Copy, Debug)]
pub struct Place {
    pub(crate) chunk: usize,
    pub(crate) start: usize,
    pub(crate) len: usize,
}
