//! The items of a list in a command.
ghost use Rattle.std.specs.Prelude.{◌≡◌};

use std::marker::Model;

/// The items of a list in a command, in order. They never change.
pub struct Items<T> {
    kept: Vec<T>,
}

impl<T> Model for Items<T> {
    ghost use Rattle.std.specs.Prelude.{List};

    ghost Value = { List T };

    ghost view = { λ i. i.kept.items };
}

impl<T> Items<T> {
    /// Makes the list of these items.
    pub(crate) fn new(items: Vec<T>) -> Items<T>
        ensures { result ≡ items.items }
    {
        Items { kept: items }
    }

    /// Returns the items in order.
    pub fn as_slice(&self) -> &[T]
        ensures { result.now ≡ self.now }
    {
        self.kept.as_slice()
    }
}

impl<T: Drop> Drop for Items<T> {
    /// Keeps the vector out of the proofs of callers that drop items.
    fn drop(self) {
        let Items { kept: _kept } = self;
    }
}
