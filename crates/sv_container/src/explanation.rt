//! Explains the outcome of a request without handling it, and lists the contexts.

ghost use Rattle.std.specs.Prelude.{◌≡◌};
ghost use Rattle.std.specs.Option.{option_copied};
ghost use Rattle.sv_container.specs.Container.{state_of};
ghost use Rattle.sv_container.specs.Explaining.{explanation_of};
ghost use Rattle.sv_policy.specs.Fault.{explain_fault};
ghost use Rattle.sv_text.specs.Gives.{Gives};

use crate::container::Container;
use sv_context::Context;
use sv_policy::{ExplainFault, Explanation, explain_request};

impl<S, F, L, W> Container<S, F, L, W> {
    /// Returns the contexts in their current state, in the order in which they were deployed.
    pub fn contexts(&self) -> &[Context<S, F, L>]
        ensures { result.now ≡ (state_of self.now).world.contexts }
    {
        self.host.contexts()
    }

    /// Returns the outcome of a request with this method and this target, by the named user of its context or without a
    /// caller (Jakarta Servlet 6.0, sections 3.5, 10.5, 12.1 and 13.8). It calls nothing, changes nothing and asks for
    /// no password. The target is read as a path with an optional query, and the method may have any length.
    ///
    /// # Errors
    /// [`ExplainFault::BadMethod`] before the target is examined, [`ExplainFault::NoSuchUser`] if the target has a
    /// context whose users do not include the named one, and [`ExplainFault::NoMemory`].
    pub fn explain(
        &self,
        method: &str,
        target: &[u8],
        user: Option<&str>,
    ) -> Result<Explanation, ExplainFault>
        ensures { Gives explain_fault result (explanation_of (state_of self.now).world.contexts method.now target.now (option_copied user.entry)) }
    {
        explain_request(self.alloc, self.host.contexts(), method, target, user)
    }
}
