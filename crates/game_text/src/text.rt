//! Texts as bytes.

use item_list::ItemList;

/// A text, which contracts see as the list of its bytes.
pub type Text = ItemList<u8>;
