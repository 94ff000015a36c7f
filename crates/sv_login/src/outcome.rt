//! The outcome of a message.

ghost use Rattle.std.specs.Prelude.{◌≡◌};
ghost use Rattle.sv_login.specs.Outcome.{login_outcome, verdict_outcome};

use crate::step::LoginOutcome;
use sv_constraints::{OwnedDecision, OwnedWhy};
use sv_text::Text;

/// The outcome of a message that has reached its context. The tests are made in the order of the variants, and the
/// first that holds decides.
#[derive(Drop)]
pub enum Outcome {
    /// The path is in a folder that is served to no client (Jakarta Servlet 6.0, section 10.5).
    Protected,
    /// The message was a login that passed (section 13.6.3).
    LoggedIn {
        /// The number of the session that holds the caller.
        number: u64,
        /// The target that was saved in the session.
        target: Option<Text>,
    },
    /// The message was a login with a wrong or missing name or password.
    LoginFailed,
    /// The message was a login with correct credentials, but no session was available.
    NoSession,
    /// The message enters the filters and servlets of the context (section 13.8).
    Entered,
    /// The client is sent to the login page, for this reason.
    SentToLogin(OwnedWhy),
    /// The constraints require a login, and the context has no form login.
    NoLogin(OwnedWhy),
    /// The constraints deny the message.
    Denied(OwnedWhy),
}

impl Outcome {
    /// Returns the outcome of a login step, or none if the message is not a login post: the constraints then decide.
    pub fn of_login(login: LoginOutcome) -> Option<Outcome>
        ensures { result ≡ login_outcome login }
    {
        match login {
            LoginOutcome::Passed { number, target } => Some(Outcome::LoggedIn { number, target }),
            LoginOutcome::WrongUser => Some(Outcome::LoginFailed),
            LoginOutcome::NoSession => Some(Outcome::NoSession),
            LoginOutcome::NotLogin => None,
        }
    }

    /// Returns the outcome of a decision of the constraints. `has_login` says whether the context has form login.
    pub fn of_decision(decision: OwnedDecision, has_login: bool) -> Outcome
        ensures { result ≡ verdict_outcome has_login decision }
    {
        match decision {
            OwnedDecision::Open(_) => Outcome::Entered,
            OwnedDecision::Login(why) if has_login => Outcome::SentToLogin(why),
            OwnedDecision::Login(why) => Outcome::NoLogin(why),
            OwnedDecision::Denied(why) => Outcome::Denied(why),
        }
    }
}
