//! A container that answers queries of the control socket.

ghost use Rattle.std.specs.Option.{option_copied};
ghost use Rattle.std.specs.Prelude.{◌++◌, codes};
ghost use Rattle.sv.specs.Accesses.{answered_in};
ghost use Rattle.sv.specs.Replies as spec;
ghost use Rattle.sv_component.specs.Steps.{steps_of};
ghost use Rattle.sv_container.specs.Container.{logs_of, state_of};
ghost use Rattle.sv_container.specs.Explaining.{explanation_of};
ghost use Rattle.sv_context.specs.Theory.{theory};
ghost use Rattle.sv_policy.specs.Text.{explanation_text};
ghost use Rattle.sv_run.specs.Host.{StepsSo};
ghost use Rattle.sv_run.specs.Connections.{awaited_in};
ghost use Rattle.sv_text.specs.Gives.{GivesAnswer};

use crate::gaps::{constraints_of, standing_of, uncovered_of};
use std::alloc::Global;
use sv_access_log::AccessSource;
use sv_component::{Filter, Listener, Servlet};
use sv_connection::Queries;
use sv_container::{Container, ExplainFault, Explanation};
use sv_journal::Journal;
use sv_mapping::HasContextPath;
use sv_policy::HasPolicy;
use sv_run::{Access, EventHandler, Happening, Reaction, StepFault, Words};
use sv_text::{Bytes, NoMemory};
use sv_wire::Awaited;

/// A container that counts its events and answers queries: what would happen to a request under its current
/// constraints, what these are and which methods they leave uncovered, and what its status is.
pub(crate) struct AskedContainer<S, F, L, W> {
    container: Container<S, F, L, W>,
    // The number of events taken, including refused ones. The count saturates.
    events: u64,
}

impl<S, F, L, W> AskedContainer<S, F, L, W> {
    ghost use Rattle.std.specs.Prelude.{◌≡◌};

    /// Wraps a container that has taken no event yet.
    pub fn new(container: Container<S, F, L, W>) -> AskedContainer<S, F, L, W>
        ensures container { result.container ≡ container }
        ensures events { result.events ≡ 0 }
    {
        AskedContainer {
            container,
            events: 0,
        }
    }

    /// Returns the container, to read it.
    pub fn container(&self) -> &Container<S, F, L, W>
        ensures { result.now ≡ self.now.container }
    {
        &self.container
    }

    /// Returns the container.
    pub fn into_container(self) -> Container<S, F, L, W>
        ensures { result ≡ self.container }
    {
        let AskedContainer {
            container,
            events: _events,
        } = self;
        container
    }
}

impl<S: Servlet, F: Filter, L: Listener, W: Words> AskedContainer<S, F, L, W> {
    ghost use Rattle.std.specs.Prelude.{◌≡◌};

    /// Sets whether a log wants the accesses of later events.
    pub fn set_logs(&mut self, logs: bool)
        ensures state { state_of self.new.container ≡ state_of self.old.container }
        ensures events { self.new.events ≡ self.old.events }
        ensures logs { logs_of self.new.container ≡ logs }
    {
        self.container.set_logs(logs);
    }
}

impl<S: Servlet, F: Filter, L: Listener, W: Words> AccessSource for AskedContainer<S, F, L, W> {
    ghost answered = { λ asked. answered_in asked.container };

    fn accesses(&self) -> &[Access] {
        self.container.accesses()
    }

    fn user_name(&self, context: usize, number: u32) -> Option<&str> {
        let context = self.container.contexts().get(context)?;
        let caller = context.users().caller(number)?;
        Some(caller.name.as_str())
    }

    fn context_path(&self, context: usize) -> Option<&str> {
        let context = self.container.contexts().get(context)?;
        Some(context.context_path())
    }
}

impl<S: Servlet, F: Filter, L: Listener, W: Words> EventHandler for AskedContainer<S, F, L, W> {
    ghost use Rattle.std.specs.Prelude.{◌≡◌};

    ghost steps = { λ before happening result after.
        StepsSo (theory (steps_of S.servlet_step F.filter_step L.listener_step) W.draws)
        (state_of before.container) happening result (state_of after.container)
        × (after.events ≡ spec.counted before.events) };

    ghost awaited = { λ asked connection. awaited_in (state_of asked.container).connections connection };

    fn step(&mut self, happening: Happening) -> Result<Reaction, StepFault> {
        self.events = self.events.saturating_add(1);
        self.container.step(happening)
    }

    fn awaits(&self, connection: u64) -> Awaited {
        self.container.awaits(connection)
    }

    fn recycle(&self, bytes: Vec<u8>, journal: Journal) {
        self.container.recycle(bytes, journal);
    }
}

impl<S, F, L, W> Queries for AskedContainer<S, F, L, W> {
    ghost use Rattle.std.specs.Prelude.{Some};

    ghost explains = { λ asked method target user.
        Some (spec.answer_line (explanation_of (state_of asked.container).world.contexts method target user)) };

    ghost uncovers = { λ asked. Some (spec.gaps_text (state_of asked.container).world.contexts) };

    ghost constrains = { λ asked. Some (spec.constraints_text (state_of asked.container).world.contexts) };

    ghost stands = { λ asked. Some (spec.counts_text asked.events (state_of asked.container).world.contexts) };

    fn explain(
        &self,
        alloc: Global,
        method: &str,
        target: &[u8],
        user: Option<&str>,
    ) -> Result<Option<Bytes>, NoMemory> {
        match answer_line(alloc, &self.container, method, target, user) {
            Ok(line) => Ok(Some(line)),
            Err(NoMemory) => Err(NoMemory),
        }
    }

    fn uncovered(&self, alloc: Global) -> Result<Option<Bytes>, NoMemory> {
        match uncovered_of(alloc, self.container.contexts()) {
            Ok(lines) => Ok(Some(lines)),
            Err(NoMemory) => Err(NoMemory),
        }
    }

    fn constraints(&self, alloc: Global) -> Result<Option<Bytes>, NoMemory> {
        match constraints_of(alloc, self.container.contexts()) {
            Ok(lines) => Ok(Some(lines)),
            Err(NoMemory) => Err(NoMemory),
        }
    }

    fn standing(&self, alloc: Global) -> Result<Option<Bytes>, NoMemory> {
        match standing_of(alloc, self.events, self.container.contexts()) {
            Ok(text) => Ok(Some(text)),
            Err(NoMemory) => Err(NoMemory),
        }
    }
}

// Returns the line of the container's explanation of a request.
fn answer_line<S, F, L, W>(
    alloc: Global,
    container: &Container<S, F, L, W>,
    method: &str,
    target: &[u8],
    user: Option<&str>,
) -> Result<Bytes, NoMemory>
    ensures { GivesAnswer result (spec.answer_line
        (explanation_of (state_of container.now).world.contexts method.now target.now (option_copied user.entry))) }
{
    match container.explain(method, target, user) {
        Ok(explanation) => explanation_line(alloc, &explanation),
        Err(ExplainFault::BadMethod) => Bytes::copy_of(alloc, b"method\n"),
        Err(ExplainFault::NoSuchUser) => Bytes::copy_of(alloc, b"user\n"),
        Err(ExplainFault::NoMemory) => Err(NoMemory),
    }
}

fn explanation_line(alloc: Global, explanation: &Explanation) -> Result<Bytes, NoMemory>
    ensures { GivesAnswer result (explanation_text explanation.now ++ codes "\n") }
{
    let line = format!(in alloc; "{explanation}\n")?;
    Ok(Bytes::from_vec(line.into_bytes()))
}
