//! Event handlers of a container.

ghost use Rattle.sv_run.specs.Contexts.{theory_of};
ghost use Rattle.sv_run.specs.Reacting.{ReactionsAreARun};
ghost use Rattle.sv_run.specs.Seen.{happening_of};

use crate::context::{Context, Words};
use crate::happening::{Happening, Reaction};
use crate::step_fault::StepFault;
use sv_journal::Journal;
use sv_wire::Awaited;

/// A handler of a container's events. It handles them one after another, as a container does.
pub trait EventHandler {
    ghost use Rattle.std.specs.Prelude.{◌≡◌, ℕ};
    ghost use Rattle.sv_run.specs.Reacting.{Reacting};
    ghost use Rattle.sv_wire.specs.declared.inbox.Awaited.{Awaited};

    /// The relation between the handler before an event, the event, its result and the handler after it.
    ghost steps: { Reacting Self };

    /// What the handler awaits of the connection with a given number.
    ghost awaited: { Self → ℕ → Awaited };

    /// Handles an event.
    ///
    /// # Errors
    /// A [`StepFault`] if the event is refused.
    fn step(&mut self, happening: Happening) -> Result<Reaction, StepFault>
        ensures { steps self.old (happening_of happening.entry) result self.new };

    /// Returns what the handler awaits of a connection. Between two requests it awaits the first byte of a message, and
    /// during a message the rest of it.
    fn awaits(&self, connection: u64) -> Awaited
        ensures { result ≡ awaited self.now connection };

    /// Reclaims the memory of bytes and of a journal that earlier events returned and that the caller no longer needs.
    /// Later events reuse it. The default implementation drops both.
    fn recycle(&self, _bytes: Vec<u8>, _journal: Journal) {}
}

/// The law that events handled one after another form a run of a container, if each of them is handled as the run
/// specifies.
pub fn reactions_are_a_run<R: EventHandler, C: Context, W: Words>()
    ensures { ReactionsAreARun R.steps (theory_of C.path_of C.conduct W.draws) }
{}
