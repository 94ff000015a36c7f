//! The input of a deployment, and the start of its components.
#![tactic(auto)]

mod begin;
mod configs;
mod context_start;
mod deployment;
mod fit;
mod laws;
mod order;
mod plan;
mod start_fault;
mod suspended_context;

pub use begin::Answered;
pub use context_start::start;
pub use deployment::Deployment;
pub use fit::fits;
pub use laws::{stops_mirror_starts, undone_starts_mirror};
pub use start_fault::StartFault;
pub use suspended_context::SuspendedContext;
pub use sv_journal::StartCode;
