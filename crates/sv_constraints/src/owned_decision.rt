//! Decisions that borrow nothing.

ghost use Rattle.std.specs.Prelude.{◌≡◌, Some};
ghost use Rattle.std.specs.Option.{option_copied};
ghost use Rattle.sv_text.specs.Gives.{GivesAnswer};
ghost use Rattle.sv_constraints.specs.Decision.{seen, seen_why, why_of, why_text, word};

use crate::cause::Cause;
use crate::decision::{Decision, Why};
use crate::display::{PrintedWhy, text_of};
use std::alloc::Global;
use std::fmt;
use sv_text::{NoMemory, Text};

/// The decision of the constraints on a request.
#[derive(Debug, Drop)]
pub enum OwnedDecision {
    /// The request may pass.
    Open(OwnedWhy),
    /// The request may not pass without a caller; a login may help.
    Login(OwnedWhy),
    /// The request may not pass.
    Denied(OwnedWhy),
}

/// The reason of a decision. It is printed as `pattern=P constraint=N cause=NAME`, with `-` for none.
#[derive(Debug, Drop)]
pub struct OwnedWhy {
    /// The text of the best pattern for the path of the request, or none if no pattern matches it.
    pub pattern: Option<Text>,
    /// The least number of the constraints that decide, or none if no constraint covers the request.
    pub number: Option<u64>,
    /// The case of the verdict that decides.
    pub cause: Cause,
}

impl OwnedDecision {
    /// Copies a decision.
    #[inline(always)]
    pub fn copy_of(alloc: Global, decision: Decision<'_>) -> Result<OwnedDecision, NoMemory>
        ensures { GivesAnswer result (seen decision.entry) }
    {
        Ok(match decision {
            Decision::Open(why) => OwnedDecision::Open(OwnedWhy::copy_of(alloc, why)?),
            Decision::Login(why) => OwnedDecision::Login(OwnedWhy::copy_of(alloc, why)?),
            Decision::Denied(why) => OwnedDecision::Denied(OwnedWhy::copy_of(alloc, why)?),
        })
    }

    /// Returns the word that is printed for the decision: `open`, `login` or `denied`.
    pub fn word(&self) -> &'static str
        ensures { result.now ≡ word self.now }
    {
        match self {
            OwnedDecision::Open(_) => "open",
            OwnedDecision::Login(_) => "login",
            OwnedDecision::Denied(_) => "denied",
        }
    }

    /// Returns the reason of the decision.
    pub fn why(&self) -> &OwnedWhy
        ensures { result.now ≡ why_of self.now }
    {
        match self {
            OwnedDecision::Open(why) | OwnedDecision::Login(why) | OwnedDecision::Denied(why) =>
                why,
        }
    }
}

impl OwnedWhy {
    /// Copies a reason.
    #[inline(always)]
    pub fn copy_of(alloc: Global, why: Why<'_>) -> Result<OwnedWhy, NoMemory>
        ensures { GivesAnswer result (seen_why why.entry) }
    {
        Ok(OwnedWhy {
            pattern: copied_text(alloc, text_of(why.pattern))?,
            number: why.number,
            cause: why.cause,
        })
    }
}

fn copied_text(alloc: Global, text: Option<&str>) -> Result<Option<Text>, NoMemory>
    ensures { GivesAnswer result (option_copied text.entry) }
{
    match text {
        Some(text) => Ok(Some(Text::copy_of(alloc, text)?)),
        None => Ok(None),
    }
}

impl fmt::Display for OwnedWhy {
    ghost output = { λ why. Some (why_text why) };

    fn fmt<W: fmt::Write>(&self, f: &mut fmt::Formatter<W>) -> fmt::Result {
        let printed = PrintedWhy {
            pattern: shown_text(&self.pattern),
            number: self.number,
            cause: self.cause,
        };
        printed.fmt(f)
    }
}

fn shown_text(text: &Option<Text>) -> Option<&str>
    ensures { option_copied result ≡ text.now }
{
    match text {
        Some(text) => Some(text.as_str()),
        None => None,
    }
}
