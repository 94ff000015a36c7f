//! Notifying listeners of a request's session events.

ghost use Rattle.sv_component.specs.Steps.{steps_of};
ghost use Rattle.std.specs.Prelude.{◌≡◌, length};
ghost use Rattle.sv_component.specs.Runs.{Runs};
ghost use Rattle.sv_live.specs.Calling.{StandsAsBefore};
ghost use Rattle.sv_live.specs.Standing.{live_world};
ghost use Rattle.sv_listeners.specs.Telling.{told};
ghost use Rattle.sv_tree.specs.Asking.{without_events};
ghost use Rattle.sv_tree.specs.Telling.{all_told};

use std::alloc::Global;
use sv_component::{Event, Exchange, Filter, Listener, Servlet};
use sv_journal::Journal;
use sv_live::Live;

/// Notifies the listeners of each pending event, the oldest first (Jakarta Servlet 6.0, section 11.3). If an entry
/// cannot be allocated, the journal breaks, but the listeners are still notified.
pub(crate) fn tell_events<S: Servlet, F: Filter, L: Listener>(
    alloc: Global,
    live: &mut Live<S, F, L>,
    exchange: &mut Exchange,
    journal: &mut Journal,
)
    ensures made { Runs (steps_of S.servlet_step F.filter_step L.listener_step) (live_world live.old journal.old)
        (all_told (length live.old.parts.listeners.items) exchange.old.events) (live_world live.new journal.new) }
    ensures stands { StandsAsBefore live.old live.new }
    ensures told { exchange.new ≡ without_events exchange.old }
{
    while let Some(event) = exchange.take_event() {
        tell_event(alloc, live, event, journal);
    }
}

// Notifies the listeners of the event.
fn tell_event<S: Servlet, F: Filter, L: Listener>(
    alloc: Global,
    live: &mut Live<S, F, L>,
    event: Event,
    journal: &mut Journal,
)
    ensures made { Runs (steps_of S.servlet_step F.filter_step L.listener_step) (live_world live.old journal.old)
        (told event (length live.old.parts.listeners.items)) (live_world live.new journal.new) }
    ensures stands { StandsAsBefore live.old live.new }
{
    live.tell_all(alloc, &event, journal);
}
