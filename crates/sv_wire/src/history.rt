//! The bytes received so far, for proofs only.

ghost use Rattle.std.specs.Prelude.{◌≡◌, ℕ, List, [], ◌++◌};
ghost use Rattle.std.specs.Borrow.{ftrue};

use std::marker::Model;

/// The bytes received so far, as contracts see them. It takes no memory, and its methods do nothing at run time.
#[derive(Drop)]
pub struct History {
    pub ghost bytes: { List ℕ },
}

impl Model for History {
    ghost also_owns = { λ _. ftrue };
}

/// A piece of bytes.
#[derive(Clone, Copy)]
pub struct Piece<'a> {
    pub bytes: &'a [u8],
}

impl History {
    /// Returns a history without bytes.
    pub fn new() -> History
        ensures { result.bytes ≡ [] }
    {
        History {}
    }

    /// Returns this history with a piece appended.
    pub fn and(&self, _piece: &Piece<'_>) -> History
        ensures { result.bytes ≡ self.now.bytes ++ _piece.now.bytes.now }
    {
        History {}
    }
}
