//! A container that runs.

ghost use Rattle.sv_component.specs.Steps.{steps_of};
ghost use Rattle.sv_container.specs.Container.{state_of};
ghost use Rattle.sv_run.specs.Connections.{awaited_in};
ghost use Rattle.sv_run.specs.Seen.{happening_of};
ghost use Rattle.sv_container.specs.Running.{StepsOf, StopsOf};

use crate::container::Container;
use sv_component::{Filter, Listener, Servlet};
use sv_journal::Journal;
use sv_run::{EventHandler, Happening, Reaction, StepFault, Words};
use sv_script::Stops;
use sv_wire::Awaited;

/// A running container, which stops at the end.
pub struct Running<S, F, L, W> {
    /// The container.
    pub container: Container<S, F, L, W>,
}

impl<S: Servlet, F: Filter, L: Listener, W: Words> EventHandler for Running<S, F, L, W> {
    ghost steps = { StepsOf (steps_of S.servlet_step F.filter_step L.listener_step) W.draws };

    ghost awaited = { λ running connection. awaited_in (state_of running.container).connections connection };

    fn step(&mut self, happening: Happening) -> Result<Reaction, StepFault> {
        self.container.step(happening)
    }

    fn awaits(&self, connection: u64) -> Awaited {
        self.container.awaits(connection)
    }

    fn recycle(&self, bytes: Vec<u8>, journal: Journal) {
        self.container.recycle(bytes, journal);
    }
}

impl<S: Servlet, F: Filter, L: Listener, W: Words + Drop> Stops for Running<S, F, L, W> {
    ghost stops = { StopsOf (steps_of S.servlet_step F.filter_step L.listener_step) };

    fn stop(self) -> Journal {
        let Running { container } = self;
        container.shutdown().into_journal()
    }
}
