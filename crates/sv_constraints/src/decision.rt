//! The decision on a request, with its reason.

ghost use Rattle.std.specs.Prelude.{Some};
ghost use Rattle.sv_constraints.specs.Decision.{decision_text, seen, seen_why, why_text};

use crate::cause::Cause;
use crate::display::{PrintedWhy, text_of};
use std::fmt;
use sv_mapping::Pattern;

/// The decision of the constraints on a request.
#[derive(Clone, Copy)]
pub enum Decision<'a> {
    /// The request may pass.
    Open(Why<'a>),
    /// The request may not pass without a caller; a login may help.
    Login(Why<'a>),
    /// The request may not pass.
    Denied(Why<'a>),
}

/// The reason of a decision.
#[derive(Clone, Copy)]
pub struct Why<'a> {
    /// The best pattern for the path of the request, or none if no pattern matches it.
    pub pattern: Option<&'a Pattern>,
    /// The least number of the constraints that decide, or none if no constraint covers the request.
    pub number: Option<u64>,
    /// The case of the verdict that decides.
    pub cause: Cause,
}

impl fmt::Display for Why<'_> {
    ghost output = { λ why. Some (why_text (seen_why why)) };

    fn fmt<W: fmt::Write>(&self, f: &mut fmt::Formatter<W>) -> fmt::Result {
        let printed = PrintedWhy {
            pattern: text_of(self.pattern),
            number: self.number,
            cause: self.cause,
        };
        printed.fmt(f)
    }
}

impl fmt::Display for Decision<'_> {
    ghost output = { λ decision. Some (decision_text (seen decision)) };

    fn fmt<W: fmt::Write>(&self, f: &mut fmt::Formatter<W>) -> fmt::Result {
        match self {
            Decision::Open(why) => write!(f, "open {why}"),
            Decision::Login(why) => write!(f, "login {why}"),
            Decision::Denied(why) => write!(f, "denied {why}"),
        }
    }
}
