//! The reasons why a context or a container did not start.

ghost use Rattle.std.specs.Prelude.{◌≡◌, Some};
ghost use Rattle.sv_journal.specs.StartCode.{new_code_name, new_code_number, start_code_name, start_code_number};

use crate::calls::Place;
use std::fmt;

/// The reason why a context did not start. It is printed as its name.
#[derive(Clone, Copy, Debug)]
pub enum StartCode {
    /// The names of the servlets or filters, or the number of listeners, differ from the descriptor. No component was
    /// called.
    PartsMismatch,
    /// The `init` of the component at this place failed, or it is a filter that is unavailable. The initialized
    /// components were stopped.
    InitFailed(Place),
    /// Memory ran out for the start, for the journal, or in an `init`. The initialized components, if any, were
    /// stopped.
    NoMemory,
}

impl StartCode {
    /// Returns the number of the code, from 1 to 3.
    pub fn number(self) -> u8
        ensures { result ≡ start_code_number self }
    {
        match self {
            StartCode::PartsMismatch => 1,
            StartCode::InitFailed(_) => 2,
            StartCode::NoMemory => 3,
        }
    }
}

impl fmt::Display for StartCode {
    ghost output = { λ code. Some (start_code_name code) };

    fn fmt<W: fmt::Write>(&self, f: &mut fmt::Formatter<W>) -> fmt::Result {
        f.write_str(match self {
            StartCode::PartsMismatch => "PartsMismatch",
            StartCode::InitFailed(_) => "InitFailed",
            StartCode::NoMemory => "NoMemory",
        })
    }
}

/// The reason why a container did not start: the first one that applies. It is printed as its name.
#[derive(Clone, Copy, Debug)]
pub enum NewCode {
    /// A context path occurs twice. Nothing was called.
    DuplicateContext,
    /// There are too many deployments. Nothing was called.
    TooManyContexts,
    /// A context did not start. That context and those before it are stopped. If memory ran out, it may be that no
    /// context was started.
    Start(StartCode),
}

impl NewCode {
    /// Returns the number of the code: 1, 2, or 10 more than the number of a context's code.
    pub fn number(self) -> u8
        ensures { result ≡ new_code_number self }
    {
        match self {
            NewCode::DuplicateContext => 1,
            NewCode::TooManyContexts => 2,
            NewCode::Start(code) => 10 + code.number(),
        }
    }
}

impl fmt::Display for NewCode {
    ghost output = { λ code. Some (new_code_name code) };

    fn fmt<W: fmt::Write>(&self, f: &mut fmt::Formatter<W>) -> fmt::Result {
        match self {
            NewCode::DuplicateContext => f.write_str("DuplicateContext"),
            NewCode::TooManyContexts => f.write_str("TooManyContexts"),
            NewCode::Start(code) => code.fmt(f),
        }
    }
}
