//! The outcome of a dispatch, and the faults of a dispatch itself.

ghost use Rattle.std.specs.Prelude.{Some, ◌≡◌};
ghost use Rattle.sv_tree.specs.Faults.{fault_name};

use std::fmt;
use sv_text::Text;

/// The outcome of a dispatch, unless memory runs out (Jakarta Servlet 6.0, sections 9.5 and 10.9).
#[derive(Drop)]
pub enum Finished {
    /// The response is complete.
    Done,
    /// The response is an error: its status, from 400 to 599, and its text.
    Error(u16, Text),
    /// The dispatch failed: the kind of the failure, which selects an error page, and its text.
    Failed(Text, Text),
}

/// The reason why a dispatch fails although no component failed. It displays as its name, which is also its kind and
/// its text.
#[derive(Clone, Copy, Debug, PartialEq, Eq)]
pub enum DispatchFault {
    /// A forward was requested after the response was committed (Jakarta Servlet 6.0, section 9.4).
    Committed,
    /// The path of the requested dispatch cannot be parsed (section 9.1).
    BadDispatchPath,
    /// A dispatch was requested at the maximum nesting depth, or the request has used up its calls.
    DispatchLimit,
    /// An include of a path that has neither a servlet nor a file (section 9.3).
    MissingInclude,
    /// A file that does not fit in the response body.
    TooLarge,
}

impl DispatchFault {
    /// Returns the name of the fault, which is also its kind and its text.
    pub fn name(self) -> &'static str
        ensures { result.now ≡ fault_name self }
    {
        match self {
            DispatchFault::Committed => "Committed",
            DispatchFault::BadDispatchPath => "BadDispatchPath",
            DispatchFault::DispatchLimit => "DispatchLimit",
            DispatchFault::MissingInclude => "MissingInclude",
            DispatchFault::TooLarge => "TooLarge",
        }
    }
}

impl fmt::Display for DispatchFault {
    ghost output = { λ fault. Some (fault_name fault) };

    fn fmt<W: fmt::Write>(&self, f: &mut fmt::Formatter<W>) -> fmt::Result {
        f.write_str(self.name())
    }
}
