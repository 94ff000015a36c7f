//! Notifying listeners of events, in the order of the specification (Jakarta Servlet 6.0, sections 11.3.3 and 11.3.4).
#![tactic(auto)]

mod notification;

pub use notification::tell;
