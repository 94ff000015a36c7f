//! One context: its deployment, message handling, session expiry and undeployment (Jakarta Servlet 6.0). Several
//! contexts can be deployed and undeployed one after another.
#![tactic(auto)]

mod context;
mod deploy_fault;
mod deployment;
mod expiry;
mod hosted;
mod laws;
mod messages;
mod responder;
mod resuming;
mod resumption;
mod room;
mod several;
mod shutdown;
mod suspension;

pub use context::{Context, let_go};
pub use deploy_fault::{DeployAllFault, DeployFault};
pub use deployment::SECONDS_OF_MINUTE;
pub use laws::{an_expiry_leaves_none_expired, an_expiry_of_none_is_nothing, limits_are_as_stated};
pub use resuming::resume_all;
pub use resumption::{Resumption, take_all};
pub use room::{Room, StopRoom};
pub use several::{deploy_all, undeploy_all};
pub use shutdown::Shutdown;
pub use suspension::{SuspendedContexts, suspend_all};
