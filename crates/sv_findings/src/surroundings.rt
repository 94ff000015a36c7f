//! What surrounds the constraints of a context.

ghost use Rattle.std.specs.Prelude.{◌≡◌};
ghost use Rattle.sv_findings.specs.Overruled as spec;

use sv_constraints::Constraint;
use sv_text::{Listed, Text};

/// What the findings of a context take into account beside its constraints.
#[derive(Drop)]
pub struct Surroundings {
    /// The paths of all contexts.
    pub contexts: Listed<Text>,
    /// The path of the context with the constraints.
    pub path: Text,
    /// Whether the context has a login configuration. Without one nobody can log in.
    pub has_login: bool,
    /// The roles that users have, or none if no users are known.
    pub held: Option<Listed<Text>>,
    /// The URL patterns of servlets.
    pub servlets: Listed<Text>,
    /// The paths of static files within the context, or none if they are not known.
    pub files: Option<Listed<Text>>,
    /// The login page, if there is one and its text is known.
    pub login_page: Option<LoginPage>,
    /// The constraints with their transport requirements, if these were dropped from the constraints whose findings are
    /// returned.
    pub with_transport: Option<Listed<Constraint>>,
}

/// Returns the constraints that are compared with each other: those with their transport requirements.
pub fn compared<'a>(
    surroundings: &'a Surroundings,
    constraints: &'a [Constraint],
) -> &'a [Constraint]
    ensures { result.now ≡ spec.compared surroundings.now constraints.now }
{
    match &surroundings.with_transport {
        Some(full) => full.as_slice(),
        None => constraints,
    }
}

/// The login page of a context.
#[derive(Drop)]
pub struct LoginPage {
    /// Its path within the context.
    pub path: Text,
    /// Its text.
    pub text: Text,
}
