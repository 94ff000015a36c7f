//! Events that are still to be reported.

ghost use Rattle.std.specs.Prelude.{◌≡◌, ◌++◌, ◌∷◌, ◌<◌, [], IfOk, drop, slice_get};
ghost use Rattle.std.specs.VecDeque.{deque_capacity, deque_len};
ghost use Rattle.sv_exchange.specs.Sessions.{ending_events};

use crate::exchange::Exchange;
use std::alloc::Global;
use std::collections::VecDeque;
use sv_session::{Attribute, Event};
use sv_text::{NoMemory, Text};

impl Exchange {
    /// Removes and returns the oldest pending event of the request's session, without taking memory (Jakarta Servlet
    /// 6.0, section 11.3).
    pub fn take_event(&mut self) -> Option<Event>
        ensures oldest { result ≡ slice_get self.old.events 0 }
        ensures left { self.new ≡ record self.old { events = drop 1 self.old.events } }
    {
        self.events.pop_front()
    }
}

/// Appends an event. There must be room for it.
pub(crate) fn push(events: &mut VecDeque<Event>, event: Event)
    requires { deque_len events.old < deque_capacity events.old }
    ensures { events.new.items ≡ events.old.items ++ event ∷ [] }
{
    // There is room.
    let _room = events.push_back(event);
}

/// Returns the events of a session that ends.
pub(crate) fn ending_events(
    alloc: Global,
    number: u64,
    attributes: &[Attribute],
) -> Result<VecDeque<Event>, NoMemory>
    ensures { IfOk result (λ events. events.items ≡ ending_events number attributes.now) }
{
    let mut events = VecDeque::new(alloc);
    events.push_back(Event::SessionDestroyed(number))?;
    for attribute in attributes {
        let name = Text::copy_of(alloc, attribute.name.as_str())?;
        events.push_back(Event::AttributeRemoved(number, name))?;
    }
    Ok(events)
}
