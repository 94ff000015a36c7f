//! The journal of the container: calls of components, events for listeners, and messages admitted or refused. And the
//! reasons why a context or a container does not start.
#![tactic(auto)]

mod answer;
mod calls;
mod entry;
mod journal;
mod refusal_cause;
mod start_code;

pub use answer::Answer;
pub use calls::{CallName, Component, Place};
pub use entry::Entry;
pub use journal::Journal;
pub use refusal_cause::RefusalCause;
pub use start_code::{NewCode, StartCode};
