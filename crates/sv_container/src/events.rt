//! The events of a container.

ghost use Rattle.std.specs.Prelude.{◌≡◌};
ghost use Rattle.sv_component.specs.Steps.{steps_of};
ghost use Rattle.sv_container.specs.Container.{accesses_of, logs_of, state_of};
ghost use Rattle.sv_context.specs.Conduct.{conduct};
ghost use Rattle.sv_context.specs.Theory.{theory};
ghost use Rattle.sv_run.specs.Host.{LogsSo, StepsSo};
ghost use Rattle.sv_run.specs.Connections.{awaited_in};
ghost use Rattle.sv_run.specs.Events.{AltersAll};
ghost use Rattle.sv_run.specs.Seen.{happening_of};

use crate::container::Container;
use sv_component::{Filter, Listener, Servlet};
use sv_journal::Journal;
use sv_run::{Access, EventHandler, Happening, Reaction, StepFault, Words};
use sv_wire::Awaited;

impl<S: Servlet, F: Filter, L: Listener, W: Words> Container<S, F, L, W> {
    /// Handles an event: raises the time, ends the sessions that have expired, and lets the event happen (RFC 9112,
    /// section 9; Jakarta Servlet 6.0, section 7.5).
    ///
    /// # Errors
    /// The first [`StepFault`] that applies. After any fault but `NoMemory`, nothing has changed. After `NoMemory`, the
    /// reaction to the event is lost: the expired sessions have ended, the event broke off, each later event is refused
    /// as `Stopped`, and the container can be shut down. The calls made so far have changed the contexts. A call that
    /// took a servlet out of service for good also destroyed it, once.
    pub fn step(&mut self, happening: Happening) -> Result<Reaction, StepFault>
        ensures steps { StepsSo (theory (steps_of S.servlet_step F.filter_step L.listener_step) W.draws)
            (state_of self.old) (happening_of happening.entry) result (state_of self.new) }
        ensures logs { LogsSo (theory (steps_of S.servlet_step F.filter_step L.listener_step) W.draws)
            (logs_of self.old) (state_of self.old) (happening_of happening.entry) result (state_of self.new) (accesses_of self.new) }
        ensures kept { logs_of self.new ≡ logs_of self.old }
        ensures alters { AltersAll (conduct (steps_of S.servlet_step F.filter_step L.listener_step)) (state_of self.old).world.contexts (state_of self.new).world.contexts }
    {
        self.host.step(happening)
    }

    /// Returns what is awaited of a connection, according to the head and the bytes that are held of its stream (RFC
    /// 9112, section 2.2): nothing if it has closed or is not known.
    pub fn awaits(&self, connection: u64) -> Awaited
        ensures { result ≡ awaited_in (state_of self.now).connections connection }
    {
        self.host.awaits(connection)
    }

    /// Sets whether a log wants the accesses of later events. A new container logs none.
    pub fn set_logs(&mut self, logs: bool)
        ensures state { state_of self.new ≡ state_of self.old }
        ensures logs { logs_of self.new ≡ logs }
    {
        self.host.set_logs(logs);
    }

    /// Returns the accesses of the last event: the messages that it answered, in the order of their responses. There are
    /// none if no log wants them, or if the event had a fault.
    pub fn accesses(&self) -> &[Access]
        ensures { result.now ≡ accesses_of self.now }
    {
        self.host.accesses()
    }

    /// Returns the time, in seconds since 1970: the greatest of the events so far.
    pub fn moment(&self) -> u64
        ensures { result ≡ (state_of self.now).moment }
    {
        self.host.moment()
    }

    /// Reclaims the memory of an earlier event's bytes and journal, which the caller no longer needs. Later events
    /// reuse it. Only small buffers are kept.
    pub fn recycle(&self, bytes: Vec<u8>, journal: Journal) {
        self.host.recycle(bytes, journal);
    }
}

impl<S: Servlet, F: Filter, L: Listener, W: Words> EventHandler for Container<S, F, L, W> {
    ghost steps = { λ before happening result after.
        StepsSo (theory (steps_of S.servlet_step F.filter_step L.listener_step) W.draws) (state_of before) happening result (state_of after) };

    ghost awaited = { λ container connection. awaited_in (state_of container).connections connection };

    fn step(&mut self, happening: Happening) -> Result<Reaction, StepFault> {
        Container::<S, F, L, W>::step(self, happening)
    }

    fn awaits(&self, connection: u64) -> Awaited {
        Container::<S, F, L, W>::awaits(self, connection)
    }

    fn recycle(&self, bytes: Vec<u8>, journal: Journal) {
        Container::<S, F, L, W>::recycle(self, bytes, journal);
    }
}
