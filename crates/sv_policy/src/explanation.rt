//! The explanation of a request, and its text.

ghost use Rattle.std.specs.Prelude.{Some};
ghost use Rattle.sv_policy.specs.Text as spec;

use std::fmt;
use sv_constraints::OwnedDecision;
use sv_text::Text;
use sv_uri::fault::PathFault;
use sv_uri::shown_context;

/// The expected outcome of a request.
#[derive(Drop)]
pub enum Explanation {
    /// The request is refused: its target has no canonical path.
    Refused(PathFault),
    /// The request is answered as if its target did not exist.
    Hidden(HiddenCause),
    /// The constraints of its context decide the request.
    Decided {
        /// The context path, empty for the root context.
        context: Text,
        /// The path within the context.
        path: Text,
        /// The decision.
        decision: OwnedDecision,
    },
}

/// The reason why a request is answered as if its target did not exist.
#[derive(Clone, Copy)]
pub enum HiddenCause {
    /// No context path serves the path.
    NoContext,
    /// The path within the context is in a folder that is served to no client.
    Protected,
}

impl fmt::Display for HiddenCause {
    ghost output = { λ cause. Some (spec.hidden_name cause) };

    fn fmt<W: fmt::Write>(&self, f: &mut fmt::Formatter<W>) -> fmt::Result {
        f.write_str(match self {
            HiddenCause::NoContext => "NoContext",
            HiddenCause::Protected => "Protected",
        })
    }
}

impl fmt::Display for Explanation {
    ghost output = { λ explanation. Some (spec.explanation_text explanation) };

    fn fmt<W: fmt::Write>(&self, f: &mut fmt::Formatter<W>) -> fmt::Result {
        match self {
            Explanation::Refused(fault) => write!(f, "refused cause={fault}"),
            Explanation::Hidden(cause) => write!(f, "hidden cause={cause}"),
            Explanation::Decided {
                context,
                path,
                decision,
            } => {
                let word = decision.word();
                let context = shown_context(context.as_str());
                let why = decision.why();
                write!(f, "{word} context={context} path={path} {why}")
            }
        }
    }
}
