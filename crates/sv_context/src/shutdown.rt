//! The result of stopping contexts.

use sv_component::{Filter, Listener, Servlet};
use sv_journal::Journal;
use sv_live::Parts;

/// The components and the journal of contexts that stopped.
#[derive(Drop)]
pub struct Shutdown<S, F, L> {
    /// The components of each context, as the calls left them.
    pub parts: Vec<Parts<S, F, L>>,
    /// The journal of all calls and events. It is broken if the container was stopped because memory ran out. If it
    /// breaks during the stop, the stop continues.
    pub journal: Journal,
}

impl<S: Servlet, F: Filter, L: Listener> Shutdown<S, F, L> {
    ghost use Rattle.std.specs.Prelude.{◌≡◌};

    /// Returns the journal, and drops the components.
    pub fn into_journal(self) -> Journal
        ensures { result ≡ self.journal }
    {
        self.journal
    }

    /// Drops the result. Callers do not drop the contents themselves, and their proofs need not cover it.
    pub fn let_go(self) {}
}
