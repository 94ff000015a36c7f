//! Ending the sessions of a context.

ghost use Rattle.sv_component.specs.Steps.{steps_of};
ghost use Rattle.std.specs.Prelude.{◌≡◌, [], length};
ghost use Rattle.sv_component.specs.Runs.{Runs};
ghost use Rattle.sv_live.specs.SessionEnds.{all_told, end_events, ends_told};
ghost use Rattle.sv_live.specs.Calling.{StandsAsBefore};
ghost use Rattle.sv_live.specs.Standing.{live_world};
ghost use Rattle.sv_live.specs.World.{HasSameCounts, world};

use crate::live::{Live, Parts};
use std::alloc::Global;
use sv_component::{Event, Filter, Listener, Servlet};
use sv_journal::Journal;
use sv_session::{Attribute, EndedSession, Sessions};

impl<S: Servlet, F: Filter, L: Listener> Live<S, F, L> {
    /// Notifies the listeners that a session has ended. Then notifies them of the removal of each attribute, in the
    /// order of their first assignment (Jakarta Servlet 6.0, sections 7.5 and 11.3.4).
    pub fn tell_end(&mut self, alloc: Global, session: EndedSession, journal: &mut Journal)
        ensures made { Runs (steps_of S.servlet_step F.filter_step L.listener_step)
            (live_world self.old journal.old) (all_told (end_events session) (length self.old.parts.listeners.items)) (live_world self.new journal.new) }
        ensures stands { StandsAsBefore self.old self.new }
    {
        tell_end(
            alloc,
            self.context.as_str(),
            &mut self.parts,
            session,
            journal,
        );
    }
}

/// Ends all sessions in order of their numbers, and notifies the listeners of each.
pub(crate) fn end_sessions<S: Servlet, F: Filter, L: Listener>(
    alloc: Global,
    context: &str,
    parts: &mut Parts<S, F, L>,
    sessions: &mut Sessions,
    journal: &mut Journal,
)
    ensures made { Runs (steps_of S.servlet_step F.filter_step L.listener_step)
        (world context.now parts.old journal.old) (ends_told sessions.old.store.sessions (length parts.old.listeners.items)) (world context.now parts.new journal.new) }
    ensures left { sessions.new ≡ record sessions.old { store = record sessions.old.store { sessions = [] } } }
    ensures counts { HasSameCounts parts.old parts.new }
{
    let mut ended = sessions.end_all();
    while let Some(session) = ended.next() {
        tell_end(alloc, context, parts, session, journal);
    }
}

// Notifies the listeners that a session has ended and that its attributes were removed.
fn tell_end<S: Servlet, F: Filter, L: Listener>(
    alloc: Global,
    context: &str,
    parts: &mut Parts<S, F, L>,
    session: EndedSession,
    journal: &mut Journal,
)
    ensures made { Runs (steps_of S.servlet_step F.filter_step L.listener_step)
        (world context.now parts.old journal.old) (all_told (end_events session) (length parts.old.listeners.items)) (world context.now parts.new journal.new) }
    ensures counts { HasSameCounts parts.old parts.new }
{
    let EndedSession { number, attributes } = session;
    parts.tell(alloc, context, &Event::SessionDestroyed(number), journal);
    for attribute in attributes.into_vec() {
        let Attribute { name, .. } = attribute;
        parts.tell(
            alloc,
            context,
            &Event::AttributeRemoved(number, name),
            journal,
        );
    }
}
