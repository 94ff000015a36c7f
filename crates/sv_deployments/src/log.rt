//! A listener that counts events.

ghost use Rattle.std.specs.Prelude.{◌≡◌};

use sv_component::{Event, Listener};

/// Counts the events that it receives. The count stays at the greatest number.
#[derive(Drop)]
pub struct Log {
    heard: u64,
}

impl Log {
    /// Creates a listener that has received no event.
    pub fn new() -> Log
        ensures { result.heard ≡ 0 }
    {
        Log { heard: 0 }
    }

    /// Returns the number of events received.
    pub fn heard(&self) -> u64
        ensures { result ≡ self.now.heard }
    {
        self.heard
    }
}

impl Listener for Log {
    ghost use Rattle.sv_deployments.specs.Counting.{Counts};

    ghost listener_step = { λ before call after. Counts before.heard call after.heard };

    fn hear(&mut self, _event: &Event) {
        self.heard = self.heard.saturating_add(1);
    }
}
