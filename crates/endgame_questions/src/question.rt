//! What is asked, and what is answered.

use crate::status::Status;
use crate::terms::GameTerms;
use game_text::Text;
use gd_words::Question;
use sgf_go::Setup;

/// A question about the position of the file of a word, which is opened on these terms.
#[derive(Clone, Copy)]
pub struct Inquiry<'a> {
    pub question: Question,
    pub terms: GameTerms,
    pub word: &'a str,
}

/// An expression, and the most parts of a form in its table of sums.
#[derive(Clone, Copy)]
pub struct Line<'a> {
    pub expression: &'a str,
    pub parts: u32,
}

/// A status and its text.
#[derive(Drop)]
pub struct Report {
    pub status: Status,
    pub text: Text,
}

/// The position of a file, or the report on what is wrong with the file.
#[derive(Drop)]
pub enum Found {
    Position(Setup),
    Fault(Report),
}
