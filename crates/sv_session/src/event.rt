//! Events for listeners.

ghost use Rattle.std.specs.Prelude.{Some};
ghost use Rattle.sv_text.specs.Gives.{GivesAnswer};
ghost use Rattle.sv_session.specs.Event.{event_text};

use std::alloc::Global;
use std::fmt;
use sv_text::{NoMemory, Text};

/// An event for listeners (Jakarta Servlet 6.0, chapter 11). A number is that of a session's record, and a text the
/// name of its attribute. Printed as its name, followed by the number and the text.
#[derive(Debug, Drop)]
pub enum Event {
    /// The context starts: no component is initialized yet.
    ContextInitialized,
    /// The context stops: all components are destroyed.
    ContextDestroyed,
    /// A request reaches its first dispatch.
    RequestInitialized,
    /// A request has left its last dispatch.
    RequestDestroyed,
    /// A session was opened.
    SessionCreated(u64),
    /// A session has ended.
    SessionDestroyed(u64),
    /// The id of a session changed.
    SessionIdChanged(u64),
    /// An attribute was added to a session.
    AttributeAdded(u64, Text),
    /// An attribute of a session was set to another value, or to the same one again.
    AttributeReplaced(u64, Text),
    /// An attribute was removed from a session, or its session ended.
    AttributeRemoved(u64, Text),
}

impl Event {
    /// Returns a copy of an event.
    pub fn copy_of(alloc: Global, event: &Event) -> Result<Event, NoMemory>
        ensures { GivesAnswer result event.now }
    {
        Ok(match event {
            Event::ContextInitialized => Event::ContextInitialized,
            Event::ContextDestroyed => Event::ContextDestroyed,
            Event::RequestInitialized => Event::RequestInitialized,
            Event::RequestDestroyed => Event::RequestDestroyed,
            Event::SessionCreated(number) => Event::SessionCreated(*number),
            Event::SessionDestroyed(number) => Event::SessionDestroyed(*number),
            Event::SessionIdChanged(number) => Event::SessionIdChanged(*number),
            Event::AttributeAdded(number, name) => {
                Event::AttributeAdded(*number, Text::copy_of(alloc, name.as_str())?)
            }
            Event::AttributeReplaced(number, name) => {
                Event::AttributeReplaced(*number, Text::copy_of(alloc, name.as_str())?)
            }
            Event::AttributeRemoved(number, name) => {
                Event::AttributeRemoved(*number, Text::copy_of(alloc, name.as_str())?)
            }
        })
    }
}

impl fmt::Display for Event {
    ghost output = { λ event. Some (event_text event) };

    fn fmt<W: fmt::Write>(&self, f: &mut fmt::Formatter<W>) -> fmt::Result {
        match self {
            Event::ContextInitialized => write!(f, "ContextInitialized"),
            Event::ContextDestroyed => write!(f, "ContextDestroyed"),
            Event::RequestInitialized => write!(f, "RequestInitialized"),
            Event::RequestDestroyed => write!(f, "RequestDestroyed"),
            Event::SessionCreated(number) => write!(f, "SessionCreated {number}"),
            Event::SessionDestroyed(number) => write!(f, "SessionDestroyed {number}"),
            Event::SessionIdChanged(number) => write!(f, "SessionIdChanged {number}"),
            Event::AttributeAdded(number, name) => write!(f, "AttributeAdded {number} {name}"),
            Event::AttributeReplaced(number, name) => write!(
                f,
                "AttributeReplaced {number} {name}"
            ),
            Event::AttributeRemoved(number, name) => write!(f, "AttributeRemoved {number} {name}"),
        }
    }
}
