//! A container that did not start.

use sv_component::{Filter, Listener, Servlet};
use sv_context::let_go;
use sv_journal::NewCode;
use sv_lifecycle::Deployment;
use sv_text::Text;

/// A container that did not start, with its deployments. The owner must take it apart.
pub struct NewFault<S, F, L> {
    /// The reason.
    pub code: NewCode,
    /// The context path that goes with the code: the first that repeats an earlier one, the first past the limit
    /// [`MAX_CONTEXTS`](crate::MAX_CONTEXTS), or that of the context that did not start. It is empty if memory ran out.
    pub context: Text,
    /// All deployments that the caller passed, in order, with the components as the calls left them.
    pub deployments: Vec<Deployment<S, F, L>>,
}

impl<S: Servlet, F: Filter, L: Listener> NewFault<S, F, L> {
    ghost use Rattle.std.specs.Prelude.{◌≡◌};

    /// Returns the code and the context path that goes with it, and drops the deployments.
    pub fn into_cause(self) -> (NewCode, Text)
        ensures code { result.0 ≡ self.code }
        ensures context { result.1 ≡ self.context }
    {
        let NewFault {
            code,
            context,
            deployments,
        } = self;
        let_go(deployments);
        (code, context)
    }
}
