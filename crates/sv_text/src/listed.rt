//! A list with its items as its model.

ghost use Rattle.std.specs.Prelude.{◌≡◌, List};

use std::marker::Model;

/// A list. Contracts see its items, so a struct with a `Listed` field is plain data to them.
#[derive(Debug, Drop)]
pub struct Listed<T> {
    inner: Vec<T>,
}

impl<T> Model for Listed<T> {
    ghost Value = { List T };

    ghost view = { λ l. l.inner.items };
}

impl<T> Listed<T> {
    /// Wraps a vector, without allocating memory.
    pub fn from_vec(inner: Vec<T>) -> Listed<T>
        ensures { result ≡ inner.items }
    {
        Listed { inner }
    }

    /// Returns the items in order.
    pub fn as_slice(&self) -> &[T]
        ensures { result.now ≡ self.now }
    {
        self.inner.as_slice()
    }

    /// Returns the vector, without allocating memory.
    pub fn into_vec(self) -> Vec<T>
        ensures { result.items ≡ self }
    {
        let Listed { inner } = self;
        inner
    }
}
