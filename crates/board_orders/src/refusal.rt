//! Replies.

ghost use Rattle.std.specs.Prelude.{◌≡◌, ◌++◌, IfOk, codes, string_bytes};
ghost use Rattle.board_orders.specs.Effects.{done, refused, unscored, unsolved, refusal_text, reply_text};

use gtp_words::compose;
use item_list::ItemList;
use std::alloc::{AllocError, Global};

/// Why an order is refused.
#[derive(Clone, Copy)]
pub enum Refusal {
    UnknownCommand,
    SyntaxError,
    UnacceptableSize,
    IllegalMove,
    CannotLoadFile,
    CannotUndo,
    BoardNotEmpty,
    BadNumberOfStones,
    BadVertexList,
}

impl Refusal {
    fn text(self) -> &'static str
        ensures { result.now ≡ refusal_text self }
    {
        match self {
            Refusal::UnknownCommand => "unknown command",
            Refusal::SyntaxError => "syntax error",
            Refusal::UnacceptableSize => "unacceptable size",
            Refusal::IllegalMove => "illegal move",
            Refusal::CannotLoadFile => "cannot load file",
            Refusal::CannotUndo => "cannot undo",
            Refusal::BoardNotEmpty => "board not empty",
            Refusal::BadNumberOfStones => "invalid number of stones",
            Refusal::BadVertexList => "bad vertex list",
        }
    }
}

/// The reply to an order that is met, with its text.
pub fn accept(alloc: Global, id: &[u8], text: &[u8]) -> Result<ItemList<u8>, AllocError>
    ensures { IfOk result (λ reply. reply ≡ reply_text id.now (done text.now)) }
{
    compose(alloc, b"=", id, text)
}

/// The text of a refusal where a position opens no game, in words.
fn unsolved_text(alloc: Global, words: &str) -> Result<String, AllocError>
    ensures { IfOk result (λ text. string_bytes text ≡ codes "cannot solve: " ++ words.now) }
{
    format!(in alloc; "cannot solve: {words}")
}

/// The reply where a position opens no game, in words.
pub fn refuse_unsolved(alloc: Global, id: &[u8], words: &str) -> Result<ItemList<u8>, AllocError>
    ensures { IfOk result (λ reply. reply ≡ reply_text id.now (unsolved words.now)) }
{
    let text = unsolved_text(alloc, words)?;
    compose(alloc, b"?", id, text.as_bytes())
}

/// The text of a refusal where a position has no score, in words.
fn unscored_text(alloc: Global, words: &str) -> Result<String, AllocError>
    ensures { IfOk result (λ text. string_bytes text ≡ codes "cannot score: " ++ words.now) }
{
    format!(in alloc; "cannot score: {words}")
}

/// The reply where a position has no score, in words.
pub fn refuse_unscored(alloc: Global, id: &[u8], words: &str) -> Result<ItemList<u8>, AllocError>
    ensures { IfOk result (λ reply. reply ≡ reply_text id.now (unscored words.now)) }
{
    let text = unscored_text(alloc, words)?;
    compose(alloc, b"?", id, text.as_bytes())
}

/// The reply to an order that is refused.
pub fn refuse(alloc: Global, id: &[u8], why: Refusal) -> Result<ItemList<u8>, AllocError>
    ensures { IfOk result (λ reply. reply ≡ reply_text id.now (refused why)) }
{
    compose(alloc, b"?", id, why.text().as_bytes())
}
