//! The cases of the verdict.

ghost use Rattle.std.specs.Prelude.{◌≡◌, Some};
ghost use Rattle.sv_constraints.specs.Decision.{cause_text};

use std::fmt;

/// The cases of the verdict, in order: the first that holds decides (Jakarta Servlet 6.0, section 13.8).
#[derive(Clone, Copy, Debug, PartialEq, Eq)]
pub enum Cause {
    /// Open: no pattern matches the path.
    NoPattern = 1,
    /// Open, or denied if uncovered methods are denied: no constraint covers the method at the best pattern.
    Uncovered = 2,
    /// Denied: a covering constraint names no roles.
    Precluded = 3,
    /// Denied: no covering constraint allows a plain connection.
    Transport = 4,
    /// Open: a covering constraint has no authorization constraint.
    Unauthenticated = 5,
    /// Login: there is no caller.
    NeedsCaller = 6,
    /// Open: a covering constraint names a role of the caller, or admits every caller.
    Role = 7,
    /// Denied: no covering constraint names a role of the caller.
    NoRole = 8,
}

impl Cause {
    /// Returns the name of the cause.
    pub fn name(self) -> &'static str
        ensures { result.now ≡ cause_text self }
    {
        match self {
            Cause::NoPattern => "NoPattern",
            Cause::Uncovered => "Uncovered",
            Cause::Precluded => "Precluded",
            Cause::Transport => "Transport",
            Cause::Unauthenticated => "Unauthenticated",
            Cause::NeedsCaller => "NeedsCaller",
            Cause::Role => "Role",
            Cause::NoRole => "NoRole",
        }
    }
}

impl fmt::Display for Cause {
    ghost output = { λ cause. Some (cause_text cause) };

    fn fmt<W: fmt::Write>(&self, f: &mut fmt::Formatter<W>) -> fmt::Result {
        f.write_str(self.name())
    }
}
