//! A started context.

use std::marker::Model;
use sv_component::{Named, Standing};
use sv_journal::Place;
use sv_text::Text;

/// A started context: its components, called by their index in the descriptor, from 0, and the availability of its
/// servlets.
#[derive(Drop)]
pub struct Live<S, F, L> {
    pub(crate) context: Text,
    pub(crate) parts: Parts<S, F, L>,
    pub(crate) initialised: Vec<Place>,
    pub(crate) standings: Vec<Standing>,
}

impl<S, F, L> Model for Live<S, F, L> {
    ghost use Rattle.sv_live.specs.Standing.{IsLive, LiveState};

    ghost Value = { LiveState S F L };

    ghost view = { λ live. record { context = live.context; parts = live.parts; initialised = live.initialised.items; standings = live.standings.items } };

    ghost invariant = { λ live. IsLive (record { context = live.context; parts = live.parts; initialised = live.initialised.items; standings = live.standings.items }) };
}

impl<S, F, L> Live<S, F, L> {
    ghost use Rattle.std.specs.Prelude.{◌≡◌};
    ghost use Rattle.sv_live.specs.Standing.{IsLive};

    /// Creates a context with this path from its started components, the initialized ones in order of their `init`, and
    /// the availability of each servlet.
    pub fn new(
        context: Text,
        parts: Parts<S, F, L>,
        initialised: Vec<Place>,
        standings: Vec<Standing>,
    ) -> Live<S, F, L>
        requires { IsLive (record { context = context; parts = parts; initialised = initialised.items; standings = standings.items }) }
        ensures { result ≡ record { context = context; parts = parts; initialised = initialised.items; standings = standings.items } }
    {
        Live {
            context,
            parts,
            initialised,
            standings,
        }
    }
}

/// The components of a context, in the order of their declaration.
#[derive(Drop)]
pub struct Parts<S, F, L> {
    /// The servlets, with their names.
    pub servlets: Vec<Named<S>>,
    /// The filters, with their names.
    pub filters: Vec<Named<F>>,
    /// The listeners.
    pub listeners: Vec<L>,
}
