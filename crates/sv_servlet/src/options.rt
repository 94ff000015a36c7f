//! The address of an application.

ghost use Rattle.std.specs.Prelude.{IfSome, MatchOption};
ghost use Rattle.sv_servlet.specs.Options.{IsAtPort, IsOfThisMachine, NamesPort, port_named};

use std::env;
use std::net::{IpAddr, Ipv4Addr, SocketAddr};
use std::rt::Env;

/// The options of an application's run.
#[derive(Clone, Copy)]
pub struct Options {
    /// The address and the port, where port 0 is any free port.
    pub address: SocketAddr,
}

impl Options {
    /// Returns the options for this port of 127.0.0.1, where 0 is any free port.
    pub fn at_port(port: u16) -> Options
        ensures { IsAtPort port result }
    {
        Options {
            address: SocketAddr::new(IpAddr::V4(Ipv4Addr::LOCALHOST), port),
        }
    }

    /// Returns the options for the port of 127.0.0.1 that the program's only argument names, where 0 is any free port.
    /// Returns none if the argument names no port, or if there is not exactly one argument.
    pub fn of_arguments<R: Env + AllocGlobal>(rt: &R) -> Option<Options>
        ensures { IfSome result IsOfThisMachine }
    {
        let mut arguments = env::args(rt).ok()?.skip(1);
        let first = arguments.next()?;
        match arguments.next() {
            Some(_) => None,
            None => of_text(first.as_str()),
        }
    }
}

// Returns the options for the port that a text names.
fn of_text(text: &str) -> Option<Options>
    ensures { MatchOption result (¬ NamesPort text.now) (IsAtPort (port_named text.now)) }
{
    Some(Options::at_port(text.parse::<u16>().ok()?))
}
