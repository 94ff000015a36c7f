//! Event handlers that list what they answered.

ghost use Rattle.std.specs.Prelude.{◌≡◌, option_copied};

use sv_run::{Access, EventHandler};

/// An event handler that lists the messages that its last event answered.
pub trait AccessSource: EventHandler {
    ghost use Rattle.sv_access_log.specs.Answered.{Answered};

    /// The accesses of the last event, and the names that a log shows of them.
    ghost answered: { Self → Answered };

    /// Returns the accesses of the last event, in the order of their responses; none if the event was refused.
    fn accesses(&self) -> &[Access]
        ensures { result.now ≡ (answered self.now).accesses };

    /// Returns the name of the user with a number in the context at a place.
    fn user_name(&self, context: usize, number: u32) -> Option<&str>
        ensures { option_copied result ≡ (answered self.now).user_name context number };

    /// Returns the path of the context at a place, `""` for the root context.
    fn context_path(&self, context: usize) -> Option<&str>
        ensures { option_copied result ≡ (answered self.now).context_path context };
}
