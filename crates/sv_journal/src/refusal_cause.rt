//! Why the container itself answers a message.

ghost use Rattle.std.specs.Prelude.{◌≡◌, Some};
ghost use Rattle.sv_journal.specs.RefusalCause.{cause_number, cause_text};

use std::fmt;
use sv_constraints::OwnedWhy;
use sv_uri::fault::PathFault;
use sv_wire::WireFault;

/// Why the container itself answers a message, with no dispatch to the requested path. Two of the causes are not
/// faults. Printed as its name; `Denied` and `NoLogin` are followed by their reason.
#[derive(Debug, Drop)]
pub enum RefusalCause {
    /// The message has a fault.
    Wire(WireFault),
    /// The target has no canonical path.
    Path(PathFault),
    /// The target is the server itself (RFC 9110, section 9.3.7).
    Star,
    /// No context serves the path.
    NoContext,
    /// The path is in a directory that is served to no client (Jakarta Servlet 6.0, section 10.5).
    Protected,
    /// The message was a login that passed (Jakarta Servlet 6.0, section 13.6.3).
    LoggedIn,
    /// The message was a login that failed.
    LoginFailed,
    /// The message was a login, and no session was available.
    NoSession,
    /// The constraints deny the message (Jakarta Servlet 6.0, section 13.8).
    Denied(OwnedWhy),
    /// The constraints require a login, and the context has none.
    NoLogin(OwnedWhy),
}

impl RefusalCause {
    /// Returns the number of the cause: 1 to 8 for the faults of messages, 11 to 20 for the faults of paths, and 21 to
    /// 28 for the others.
    pub fn number(&self) -> u8
        ensures { result ≡ cause_number self.now }
    {
        match self {
            RefusalCause::Wire(fault) => fault.number(),
            RefusalCause::Path(fault) => 10 + fault.number(),
            RefusalCause::Star => 21,
            RefusalCause::NoContext => 22,
            RefusalCause::Protected => 23,
            RefusalCause::LoggedIn => 24,
            RefusalCause::LoginFailed => 25,
            RefusalCause::NoSession => 26,
            RefusalCause::Denied(_) => 27,
            RefusalCause::NoLogin(_) => 28,
        }
    }
}

impl fmt::Display for RefusalCause {
    ghost output = { λ cause. Some (cause_text cause) };

    fn fmt<W: fmt::Write>(&self, f: &mut fmt::Formatter<W>) -> fmt::Result {
        match self {
            RefusalCause::Wire(fault) => write!(f, "{fault}"),
            RefusalCause::Path(fault) => write!(f, "{fault}"),
            RefusalCause::Star => write!(f, "Star"),
            RefusalCause::NoContext => write!(f, "NoContext"),
            RefusalCause::Protected => write!(f, "Protected"),
            RefusalCause::LoggedIn => write!(f, "LoggedIn"),
            RefusalCause::LoginFailed => write!(f, "LoginFailed"),
            RefusalCause::NoSession => write!(f, "NoSession"),
            RefusalCause::Denied(why) => write!(f, "Denied {why}"),
            RefusalCause::NoLogin(why) => write!(f, "NoLogin {why}"),
        }
    }
}
