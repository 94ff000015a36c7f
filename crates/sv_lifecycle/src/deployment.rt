//! The input of a deployment.

use sv_descriptor::Descriptor;
use sv_files::Files;
use sv_live::Parts;
use sv_realm::Realm;
use sv_text::Text;

/// The input of a deployment.
#[derive(Drop)]
pub struct Deployment<S, F, L> {
    /// The context path: empty for the root context. Any other path begins with `/` and does not end with it.
    pub path: Text,
    /// The deployment descriptor.
    pub descriptor: Descriptor,
    /// The static files.
    pub files: Files,
    /// The users who may log in.
    pub users: Realm,
    /// The components, in the order of their declaration.
    pub parts: Parts<S, F, L>,
}
