//! Replies.

ghost use Rattle.std.specs.Prelude.{◌≡◌, IfOk};
ghost use Rattle.gtp_engine.specs.Session.{done, refused, refusal_text, reply_text};

use game_text::Text;
use gtp_words::compose;
use std::alloc::{AllocError, Global};

/// Why a request is refused.
#[derive(Clone, Copy)]
pub(crate) enum Refusal {
    UnknownCommand,
    SyntaxError,
    UnacceptableSize,
    GameHasBegun,
    CannotSolve,
    NotInTurn,
    IllegalMove,
    CannotLoadFile,
}

impl Refusal {
    fn text(self) -> &'static str
        ensures { result.now ≡ refusal_text self }
    {
        match self {
            Refusal::UnknownCommand => "unknown command",
            Refusal::SyntaxError => "syntax error",
            Refusal::UnacceptableSize => "unacceptable size",
            Refusal::GameHasBegun => "game has begun",
            Refusal::CannotSolve => "cannot solve",
            Refusal::NotInTurn => "not in turn",
            Refusal::IllegalMove => "illegal move",
            Refusal::CannotLoadFile => "cannot load file",
        }
    }
}

/// The reply to a request that is met, with its text.
pub(crate) fn accept(alloc: Global, id: &[u8], text: &[u8]) -> Result<Text, AllocError>
    ensures { IfOk result (λ reply. reply ≡ reply_text id.now (done text.now)) }
{
    compose(alloc, b"=", id, text)
}

/// The reply to a request that is refused.
pub(crate) fn refuse(alloc: Global, id: &[u8], why: Refusal) -> Result<Text, AllocError>
    ensures { IfOk result (λ reply. reply ≡ reply_text id.now (refused why)) }
{
    compose(alloc, b"?", id, why.text().as_bytes())
}
