//! Canonical paths of request targets, the faults of targets without one, paths in Location fields, and context paths
//! as they are shown.
#![tactic(auto)]

mod canonical;
pub mod fault;
pub mod laws;
mod location_field;
mod name;
pub mod path;
mod plain;
mod query;
mod segment;
mod separator;
mod walk;

pub use canonical::canon;
pub use location_field::{location, shown_context};
