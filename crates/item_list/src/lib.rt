//! Lists that grow, which contracts see as the lists of their items.
#![tactic(auto)]

ghost use Rattle.std.specs.Prelude.{◌≡◌, [], ◌∷◌, ◌++◌, IfOk, OnOk, OnErr, string_bytes};

use std::alloc::{AllocError, Global};
use std::marker::Model;

/// A list that grows. Contracts see it as the list of its items.
#[derive(Drop)]
pub struct ItemList<T> {
    items: Vec<T>,
}

impl<T> Model for ItemList<T> {
    ghost use Rattle.std.specs.Prelude.{List};

    ghost Value = { List T };

    ghost view = { λ l. l.items.items };
}

impl<T: Drop> ItemList<T> {
    /// The empty list.
    pub fn new(alloc: Global) -> Self
        ensures { result ≡ [] }
    {
        ItemList {
            items: Vec::new(alloc),
        }
    }

    /// Appends one item, or leaves the list as it was where memory is refused.
    pub fn push(&mut self, item: T) -> Result<(), AllocError>
        ensures ok { OnOk result (self.new ≡ self.old ++ item ∷ []) }
        ensures err { OnErr result (self.new ≡ self.old) }
    {
        Ok(self.items.push(item)?)
    }

    /// The items in order.
    pub fn as_slice(&self) -> &[T]
        ensures { result.now ≡ self.now }
    {
        &self.items
    }
}

impl<T: Copy + Drop> ItemList<T> {
    /// The list of these items.
    pub fn from_slice(alloc: Global, items: &[T]) -> Result<Self, AllocError>
        ensures { IfOk result (λ l. l ≡ items.now) }
    {
        Ok(ItemList {
            items: Vec::from_slice(alloc, items)?,
        })
    }

    /// Appends items, or leaves the list as it was where memory is refused.
    pub fn extend_from_slice(&mut self, more: &[T]) -> Result<(), AllocError>
        ensures ok { OnOk result (self.new ≡ self.old ++ more.now) }
        ensures err { OnErr result (self.new ≡ self.old) }
    {
        Ok(self.items.extend_from_slice(more)?)
    }
}

/// The items of a vector.
impl<T> From<Vec<T>> for ItemList<T> {
    ghost from_gives = { λ v l. l ≡ v.items };

    fn from(items: Vec<T>) -> ItemList<T> {
        ItemList { items }
    }
}

/// The bytes of a string.
impl From<String> for ItemList<u8> {
    ghost from_gives = { λ s l. l ≡ string_bytes s };

    fn from(text: String) -> ItemList<u8> {
        ItemList {
            items: text.into_bytes(),
        }
    }
}
