//! The answers of components, as the journal records them.

ghost use Rattle.std.specs.Prelude.{Some};
ghost use Rattle.sv_journal.specs.Called.{answer_text};

use std::fmt;
use sv_text::Text;

/// The answer of a component. Printed as its name, followed by its value, if it has one.
#[derive(Debug, Drop)]
pub enum Answer {
    Ready,
    Pass,
    Stop,
    Done,
    /// The requested path.
    Forward(Text),
    /// The requested path.
    Include(Text),
    /// The code that the component gave.
    Error(u16),
    /// The kind of the failure, which may be empty. `None` for a call without kinds, such as `init`.
    Failed(Option<Text>),
    Unavailable,
    NoMemory,
}

impl fmt::Display for Answer {
    ghost output = { λ answer. Some (answer_text answer) };

    fn fmt<W: fmt::Write>(&self, f: &mut fmt::Formatter<W>) -> fmt::Result {
        match self {
            Answer::Ready => write!(f, "Ready"),
            Answer::Pass => write!(f, "Pass"),
            Answer::Stop => write!(f, "Stop"),
            Answer::Done => write!(f, "Done"),
            Answer::Forward(path) => write!(f, "Forward {path}"),
            Answer::Include(path) => write!(f, "Include {path}"),
            Answer::Error(code) => write!(f, "Error {code}"),
            Answer::Failed(Some(kind)) => write!(f, "Failed {kind}"),
            Answer::Failed(None) => write!(f, "Failed"),
            Answer::Unavailable => write!(f, "Unavailable"),
            Answer::NoMemory => write!(f, "NoMemory"),
        }
    }
}
