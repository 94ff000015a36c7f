//! The sessions of a context: their ids, callers, attributes and expiry, and the events that listeners hear (Jakarta
//! Servlet 6.0, chapters 7 and 11).
#![tactic(auto)]

mod due;
mod ended_sessions;
mod event;
mod expiry_queue;
mod id;
mod id_serial;
mod ids;
mod index;
mod laws;
mod limits;
mod node;
mod restore_fault;
mod session_fault;
mod sessions;
mod slot;
mod stored_session;

pub use due::Due;
pub use ended_sessions::{Counted, EndedSession, EndedSessions};
pub use event::Event;
pub use expiry_queue::Queue;
pub use laws::{
    an_accessed_session_has_not_expired, an_id_names_its_session, callers_are_entered,
    components_keep_the_sessions, each_id_has_the_next_serial,
    expiry_ends_exactly_the_expired_sessions, expiry_judges_at_most_one_more, limits_are_as_stated,
    no_call_leaves_an_expired_session, no_id_is_given_twice, no_serial_follows_the_greatest,
    sessions_stay_in_order,
};
pub use limits::{GREATEST_SERIAL, MAX_ATTRIBUTE_NAME_BYTES, MAX_ATTRIBUTES, MAX_VALUE_BYTES};
pub use restore_fault::RestoreFault;
pub use session_fault::SessionFault;
pub use sessions::Sessions;
pub use slot::Attribute;
pub use stored_session::StoredSession;
