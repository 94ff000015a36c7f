//! A container: started contexts and their connections, which handles events one by one (Jakarta Servlet 6.0; RFC
//! 9112). The crate also starts a container with a seed, and runs a whole script, from its input bytes to its output
//! bytes.
#![tactic(auto)]

mod container;
mod container_start;
mod events;
mod explanation;
mod laws;
mod new_fault;
mod refusal;
mod resumption;
mod running;
mod script;
mod seeded_start;
mod shutdown;
mod suspension;

pub use container::{Container, MAX_CONTEXTS};
pub use laws::{
    containers_explain_what_was_deployed, limits_are_as_stated, stopped_containers_stop_quietly,
};
pub use new_fault::NewFault;
pub use running::Running;
pub use script::run_script;
pub use seeded_start::{start, start_resumed};
pub use suspension::{Suspended, Suspension};
pub use sv_context::{Shutdown, let_go};
pub use sv_journal::NewCode;
pub use sv_policy::{ExplainFault, Explanation, HiddenCause};
pub use sv_run::RunFault;
