//! Constraints that change nothing at a pattern: the others decide each request there alike (Jakarta Servlet 6.0,
//! sections 13.8.1 and 13.8.3).
#![tactic(auto)]

mod alike;
mod laws;
mod meant_roles;
mod names;
mod overruled;

pub use alike::is_any_open;
pub use laws::limits_are_as_stated;
pub use names::rising_names;
pub use overruled::{MAX_COMPARED_AT_PATTERN, overruled_at};
