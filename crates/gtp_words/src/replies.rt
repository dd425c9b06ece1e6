//! Replies.

ghost use Rattle.std.specs.Prelude.{◌≡◌, IfOk};
ghost use Rattle.gtp_words.specs.Replies.{signed_text};

use item_list::ItemList;
use std::alloc::{AllocError, Global};

/// A reply with a sign, an id and a text.
#[tactic(auto, using(std::proofs::Common::append_assoc))]
pub fn compose(
    alloc: Global,
    sign: &[u8],
    id: &[u8],
    text: &[u8],
) -> Result<ItemList<u8>, AllocError>
    ensures { IfOk result (λ reply. reply ≡ signed_text sign.now id.now text.now) }
{
    let mut reply = ItemList::from_slice(alloc, sign)?;
    reply.extend_from_slice(id)?;
    reply.extend_from_slice(b" ")?;
    reply.extend_from_slice(text)?;
    reply.extend_from_slice(b"\n\n")?;
    Ok(reply)
}
