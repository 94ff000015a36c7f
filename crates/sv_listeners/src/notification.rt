//! Notifying listeners of an event.

ghost use Rattle.sv_component.specs.Steps.{listening};
ghost use Rattle.std.specs.Prelude.{◌≡◌, ◌-◌, ◌<◌, length, if◌then◌else◌};
ghost use Rattle.sv_component.specs.Runs.{Moves, OfListener};
ghost use Rattle.sv_listeners.specs.Telling.{Tells, is_end, listeners_alone};

use std::alloc::Global;
use sv_component::Listener;
use sv_journal::{Entry, Journal};
use sv_session::Event;

/// Notifies each listener once, in notification order (Jakarta Servlet 6.0, sections 11.3.3 and 11.3.4), and journals
/// each notification. If memory for an entry runs out, the journal breaks, and the listeners are still notified.
pub fn tell<L: Listener>(
    alloc: Global,
    context: &str,
    listeners: &mut [L],
    event: &Event,
    journal: &mut Journal,
)
    ensures { Tells L.listener_step context.now event.now listeners.old journal.old listeners.new journal.new }
{
    let count = listeners.len();
    for told in 0..count {
        let place = hearing_place(event, count, told);
        hear(alloc, context, listeners, place, event, journal);
    }
}

// Notifies the listener at an index.
fn hear<L: Listener>(
    alloc: Global,
    context: &str,
    listeners: &mut [L],
    place: usize,
    event: &Event,
    journal: &mut Journal,
)
    requires { place < length listeners.old }
    ensures moves { Moves (listening L.listener_step)
        (listeners_alone context.now listeners.old journal.old) (OfListener place event.now) (listeners_alone context.now listeners.new journal.new) }
    ensures count { length listeners.new ≡ length listeners.old }
{
    listeners[place].hear(event);
    journal.note(Entry::told(alloc, context, place, event));
}

// Returns the index of the next listener, given the number of listeners already notified.
fn hearing_place(event: &Event, count: usize, told: usize) -> usize
    requires { told < count }
    ensures { result ≡ (if is_end event.now then count - 1 - told else told) }
{
    if is_end(event) {
        count - 1 - told
    } else {
        told
    }
}

// Returns whether a context, a request or a session ends.
fn is_end(event: &Event) -> bool
    ensures { result ≡ is_end event.now }
{
    match event {
        Event::ContextInitialized
        | Event::RequestInitialized
        | Event::SessionCreated(_)
        | Event::SessionIdChanged(_)
        | Event::AttributeAdded(_, _)
        | Event::AttributeReplaced(_, _)
        | Event::AttributeRemoved(_, _) => false,
        Event::ContextDestroyed | Event::RequestDestroyed | Event::SessionDestroyed(_) => true,
    }
}
