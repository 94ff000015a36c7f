//! The program's listeners as one type.

ghost use Rattle.std.specs.Prelude.{◌≡◌};
ghost use Rattle.sv_deployments.specs.ListenerClasses.{new_listener};

use crate::log::Log;
use sv_component::{Event, Listener};

/// A listener of one of the program's classes.
#[derive(Drop)]
pub enum ProgramListener {
    /// Counts events: the class `Log`.
    Log(Log),
}

impl ProgramListener {
    /// Creates a listener of the class of this name. Returns none if no listener class has this name.
    pub fn of_class(class: &str) -> Option<ProgramListener>
        ensures { result ≡ new_listener class.now }
    {
        if class == "Log" {
            Some(ProgramListener::Log(Log::new()))
        } else {
            None
        }
    }
}

impl Listener for ProgramListener {
    ghost use Rattle.sv_deployments.specs.ListenerClasses.{HearsAs};

    ghost listener_step = { HearsAs };

    fn hear(&mut self, event: &Event) {
        match self {
            ProgramListener::Log(listener) => listener.hear(event),
        }
    }
}
