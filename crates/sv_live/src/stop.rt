//! Stopping a context.

ghost use Rattle.sv_component.specs.Steps.{steps_of};
ghost use Rattle.std.specs.Prelude.{◌≡◌, [], length, map, reverse};
ghost use Rattle.std.specs.List.{All};
ghost use Rattle.sv_component.specs.Runs.{Runs};
ghost use Rattle.sv_live.specs.Calls.{destroyed, stop_calls};
ghost use Rattle.sv_live.specs.Standing.{in_service, is_in_service, live_world, standing_at};
ghost use Rattle.sv_live.specs.World.{HasSameCounts, IsPlaceIn, world};

use crate::live::{Live, Parts};
use crate::session_ends::end_sessions;
use std::alloc::Global;
use sv_component::{Event, Filter, Listener, Servlet, Standing};
use sv_journal::{Journal, Place};
use sv_session::Sessions;

impl<S: Servlet, F: Filter, L: Listener> Live<S, F, L> {
    /// Stops a context (Jakarta Servlet 6.0, sections 2.3.4, 6.2.1 and 11.3.4). The initialized components, except the
    /// servlets that are gone, are destroyed in reverse order of their `init`. Then the sessions end in order of their
    /// numbers, and then the listeners are notified of the stop. A journal that breaks does not interrupt it.
    pub fn stop(
        self,
        alloc: Global,
        sessions: &mut Sessions,
        journal: &mut Journal,
    ) -> Parts<S, F, L>
        ensures made { Runs (steps_of S.servlet_step F.filter_step L.listener_step)
            (live_world self journal.old) (stop_calls (length self.parts.listeners.items) (in_service self) sessions.old.store.sessions) (world self.context result journal.new) }
        ensures left { sessions.new ≡ record sessions.old { store = record sessions.old.store { sessions = [] } } }
    {
        let Live {
            context,
            mut parts,
            mut initialised,
            standings,
        } = self;
        initialised.retain(|place| is_in_service(standings.as_slice(), *place));
        end_all(
            alloc,
            context.as_str(),
            &mut parts,
            initialised.as_slice(),
            sessions,
            journal,
        );
        parts
    }
}

/// Destroys the components at these places in reverse order, ends the sessions in order of their numbers, and notifies
/// the listeners of the stop (Jakarta Servlet 6.0, sections 2.3.4, 6.2.1 and 11.3.4). A journal that breaks does not
/// interrupt it.
pub fn end_all<S: Servlet, F: Filter, L: Listener>(
    alloc: Global,
    context: &str,
    parts: &mut Parts<S, F, L>,
    places: &[Place],
    sessions: &mut Sessions,
    journal: &mut Journal,
)
    requires { All (IsPlaceIn parts.old) places.now }
    ensures made { Runs (steps_of S.servlet_step F.filter_step L.listener_step)
        (world context.now parts.old journal.old) (stop_calls (length parts.old.listeners.items) places.now sessions.old.store.sessions) (world context.now parts.new journal.new) }
    ensures left { sessions.new ≡ record sessions.old { store = record sessions.old.store { sessions = [] } } }
    ensures counts { HasSameCounts parts.old parts.new }
{
    destroy_back(alloc, context, parts, places, journal);
    end_sessions(alloc, context, parts, sessions, journal);
    parts.tell(alloc, context, &Event::ContextDestroyed, journal);
}

// Destroys the components at these places in reverse order.
fn destroy_back<S: Servlet, F: Filter, L: Listener>(
    alloc: Global,
    context: &str,
    parts: &mut Parts<S, F, L>,
    places: &[Place],
    journal: &mut Journal,
)
    requires { All (IsPlaceIn parts.old) places.now }
    ensures made { Runs (steps_of S.servlet_step F.filter_step L.listener_step)
        (world context.now parts.old journal.old) (map destroyed (reverse places.now)) (world context.now parts.new journal.new) }
    ensures counts { HasSameCounts parts.old parts.new }
{
    let count = places.len();
    for done in 0..count {
        parts.destroy(alloc, context, places[count - 1 - done], journal);
    }
}

fn is_in_service(standings: &[Standing], place: Place) -> bool
    ensures { result ≡ is_in_service standings.now place }
{
    match place {
        Place::Filter(_) => true,
        Place::Servlet(servlet) => !standing_at(standings, servlet).is_gone(),
    }
}

// Returns the availability of the servlet at an index. A servlet that does not exist is gone.
fn standing_at(standings: &[Standing], place: usize) -> Standing
    ensures { result ≡ standing_at standings.now place }
{
    match standings.get(place) {
        Some(standing) => *standing,
        None => Standing::Gone,
    }
}
