//! A started context: calling its components, notifying its listeners, and stopping it.
#![tactic(auto)]

mod calls;
mod indexed_calls;
mod live;
mod session_ends;
mod stop;

pub use live::{Live, Parts};
pub use stop::end_all;
pub use sv_component::{Named, Standing};
pub use sv_journal::Place;
