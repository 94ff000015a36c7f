//! Components and their calls.

ghost use Rattle.std.specs.Prelude.{Some};
ghost use Rattle.sv_journal.specs.Called.{call_text, component_text};

use std::fmt;
use sv_text::Text;

/// A component, by its name. Printed as `servlet` or `filter`, followed by the name.
#[derive(Debug, Drop)]
pub enum Component {
    Servlet(Text),
    Filter(Text),
}

/// A filter or a servlet, by its index in the descriptor, from 0.
#[derive(Clone, Copy, Debug)]
pub enum Place {
    Filter(usize),
    Servlet(usize),
}

/// A call of a component. Printed as the name of the method.
#[derive(Clone, Copy, Debug, PartialEq, Eq)]
pub enum CallName {
    Init,
    /// The number of its turn, printed after the name.
    Service(u32),
    Before,
    After,
    Destroy,
}

impl fmt::Display for Component {
    ghost output = { λ component. Some (component_text component) };

    fn fmt<W: fmt::Write>(&self, f: &mut fmt::Formatter<W>) -> fmt::Result {
        match self {
            Component::Servlet(name) => write!(f, "servlet {name}"),
            Component::Filter(name) => write!(f, "filter {name}"),
        }
    }
}

impl fmt::Display for CallName {
    ghost output = { λ call. Some (call_text call) };

    fn fmt<W: fmt::Write>(&self, f: &mut fmt::Formatter<W>) -> fmt::Result {
        match self {
            CallName::Init => write!(f, "init"),
            CallName::Service(turn) => write!(f, "service {turn}"),
            CallName::Before => write!(f, "before"),
            CallName::After => write!(f, "after"),
            CallName::Destroy => write!(f, "destroy"),
        }
    }
}
