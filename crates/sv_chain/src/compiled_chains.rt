//! The descriptor of compiled chains, for proofs only.

ghost use Rattle.std.specs.Prelude.{◌≡◌};
ghost use Rattle.std.specs.Borrow.{ftrue};
ghost use Rattle.sv_descriptor.specs.declared.web_app.WebApp.{WebApp};

use std::marker::Model;
use sv_descriptor::Descriptor;

/// The descriptor of compiled chains, as contracts see it. It takes no memory.
#[derive(Drop)]
pub(crate) struct Compiled {
    pub(crate) ghost app: { WebApp },
}

impl Model for Compiled {
    ghost also_owns = { λ _. ftrue };
}

impl Compiled {
    /// Creates the ghost copy of this descriptor.
    pub(crate) fn of(_descriptor: &Descriptor) -> Compiled
        ensures { result.app ≡ _descriptor.now }
    {
        Compiled {}
    }
}
