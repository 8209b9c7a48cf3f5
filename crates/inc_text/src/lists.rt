//! Lists as parts of public values.
ghost use Rattle.std.specs.Prelude.{◌≡◌};

use std::marker::Model;

/// A list as a field of a public value: a `Vec` whose room is no part of the value.
///
/// It owns the elements. Making one costs no memory and copies nothing.
#[derive(Drop)]
pub struct Items<T> {
    elements: Vec<T>,
}

impl<T> Model for Items<T> {
    ghost use Rattle.std.specs.Prelude.{List};

    ghost Value = { List T };

    ghost view = { λ a. a.elements.items };
}

impl<T> Items<T> {
    /// The elements of a `Vec`, in order.
    pub fn new(elements: Vec<T>) -> Self
        ensures { result ≡ elements.items }
    {
        Items { elements }
    }

    /// The elements, in order.
    pub fn as_slice(&self) -> &[T]
        ensures { result.now ≡ self.now }
    {
        self.elements.as_slice()
    }
}
