//! Why a server at a control socket did not do what it was asked for.

ghost use Rattle.std.specs.Prelude.{◌≡◌};
ghost use Rattle.sv_program.specs.Refusal.{refusal_text};

/// Why a server at a control socket did not do what it was asked for.
#[derive(Clone, Copy, Debug, PartialEq, Eq)]
pub enum Refusal {
    /// The server cannot read the request.
    Unknown,
    /// An edit names a context or a constraint that the server does not have.
    NoSuch,
    /// The context has as many constraints as there may be.
    TooMany,
    /// No number is left for another constraint.
    NumberSpent,
    /// The method of `explain` is not a token.
    Method,
    /// The target's context has no user of this name.
    User,
    /// The server ran out of memory.
    NoMemory,
    /// The server is stopping.
    Stopping,
    /// The connection ended before the reply was complete.
    Cut,
    /// The reply did not end in time.
    Late,
}

impl Refusal {
    /// Returns the reason in words.
    pub fn text(self) -> &'static str
        ensures { result.now ≡ refusal_text self }
    {
        match self {
            Refusal::Unknown => {
                "the server cannot read this: PATTERN is a URL pattern; METHODS is *, or names joined by commas, or ! and such names; ROLES is open, nobody or names joined by commas; N is a number"
            }
            Refusal::NoSuch => "the server has no such context or constraint",
            Refusal::TooMany => "the context has as many constraints as there may be",
            Refusal::NumberSpent => "no number is left for another constraint",
            Refusal::Method => "the method is not a token",
            Refusal::User => "the context of the target has no such user",
            Refusal::NoMemory => "the server ran out of memory",
            Refusal::Stopping => "the server is stopping",
            Refusal::Cut => "the connection ended before the reply was complete",
            Refusal::Late => "the reply did not end in time: within 10 seconds, for stop within 20",
        }
    }
}
