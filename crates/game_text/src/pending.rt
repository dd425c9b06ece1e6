//! What is kept while a text is read.

use game_store::GameId;

/// What is read next: the first option of a side or the side's end, a game, what is behind an option, or the end of the
/// text behind the whole game.
#[derive(Clone, Copy)]
pub(crate) enum Place {
    First,
    Game,
    Behind,
    Whole,
}

/// An open form: where its options begin among those that were read, and where its Right options do, once its bar was.
#[derive(Clone, Copy)]
pub(crate) struct Opening {
    pub(crate) start: usize,
    pub(crate) middle: Option<usize>,
}

/// The forms that are open, the innermost last, and the options that were read in them.
#[derive(Drop)]
pub(crate) struct Pending {
    pub(crate) options: Vec<GameId>,
    pub(crate) opens: Vec<Opening>,
}

/// A text, and how many parts each of its forms may have.
#[derive(Clone, Copy)]
pub(crate) struct Source<'a> {
    pub(crate) text: &'a [u8],
    pub(crate) parts_limit: u32,
}

/// A place of the text, and what is read there.
#[derive(Clone, Copy)]
pub(crate) struct Step {
    pub(crate) at: usize,
    pub(crate) place: Place,
}
