//! Faults of deployments.

use sv_journal::StartCode;
use sv_lifecycle::Deployment;
use sv_text::Text;

/// A context that was not deployed.
pub struct DeployFault<S, F, L> {
    /// The reason why it did not start.
    pub fault: StartCode,
    /// The deployment, with the components as the calls left them.
    pub deployment: Deployment<S, F, L>,
}

/// Contexts that were not deployed, because one of them did not start.
pub struct DeployAllFault<S, F, L> {
    /// The reason why it did not start.
    pub code: StartCode,
    /// The path of the context that did not start.
    pub context: Text,
    /// All deployments in their order, with the components as the calls left them.
    pub deployments: Vec<Deployment<S, F, L>>,
}
