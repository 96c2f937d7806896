//! Lists that contracts see as lists, and not as the vectors that keep them.

ghost use Rattle.std.specs.Prelude.{◌≡◌, ◌↔◌, length, List, IsTrue};

use std::marker::Model;

/// A list of values, kept in a vector.
#[derive(Debug, Drop)]
pub struct Sequence<X> {
    items: Vec<X>,
}

impl<X> Model for Sequence<X> {
    ghost Value = { List X };

    ghost view = { λ s. s.items.items };
}

/// A list of bytes.
pub type Bytes = Sequence<u8>;

impl<X> Sequence<X> {
    /// The list of a vector's items. It takes no memory, and gives back the room that they do not take.
    pub fn from_vec(items: Vec<X>) -> Self
        ensures { result ≡ items.items }
    {
        let mut items = items;
        items.shrink_to_fit();
        Sequence { items }
    }

    /// The vector of the items. It takes no memory.
    pub fn into_vec(self) -> Vec<X>
        ensures { result.items ≡ self }
    {
        let Sequence { items } = self;
        items
    }

    /// The items, in order.
    pub fn as_slice(&self) -> &[X]
        ensures { result.now ≡ self.now }
    {
        &self.items
    }

    /// How many items there are.
    pub fn len(&self) -> usize
        ensures { result ≡ length self.now }
    {
        self.items.len()
    }

    /// Whether there is no item.
    pub fn is_empty(&self) -> bool
        ensures { IsTrue result ↔ (length self.now ≡ 0) }
    {
        self.items.is_empty()
    }
}
