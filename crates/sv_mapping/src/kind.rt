//! The kinds of dispatches.

ghost use Rattle.std.specs.Prelude.{Some};
ghost use Rattle.sv_mapping.specs.Kind.{kind_name};

use std::fmt;

/// How a request reaches a servlet: the standard's `DispatcherType` (Jakarta Servlet 6.0, section 6.2.5). It is printed
/// as descriptors name it.
#[derive(Clone, Copy, Debug, PartialEq, Eq)]
pub enum Kind {
    /// From a client.
    Request,
    /// By a forward of another servlet.
    Forward,
    /// By an include of another servlet.
    Include,
    /// For an error that has a page.
    Error,
}

impl fmt::Display for Kind {
    ghost output = { λ kind. Some (kind_name kind) };

    fn fmt<W: fmt::Write>(&self, f: &mut fmt::Formatter<W>) -> fmt::Result {
        f.write_str(match self {
            Kind::Request => "REQUEST",
            Kind::Forward => "FORWARD",
            Kind::Include => "INCLUDE",
            Kind::Error => "ERROR",
        })
    }
}
