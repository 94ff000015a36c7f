//! A port of this machine, and the faults of commands that listen or open files.

ghost use Rattle.std.specs.Prelude.{◌≡◌};
ghost use Rattle.sv_listening.specs.Controlling.{IsBroken};
ghost use Rattle.sv_listening.specs.RunFault.{fault_of_run};

use std::alloc::Global;
use std::io;
use std::io::ErrorKind;
use std::net::{Ipv4Addr, Net, SocketAddr, SocketAddrV4, TcpListener};
use sv_program::{CommandFault, SocketFault, Unavailable};
use sv_run::RunFault;
use sv_text::{NoMemory, Text};

/// Listens at the port, only for connections of this machine.
pub(crate) fn listen<H: Net>(host: &H, port: u16) -> Result<H::Listener, CommandFault> {
    let address = SocketAddr::V4(SocketAddrV4::new(Ipv4Addr::LOCALHOST, port));
    match TcpListener::bind(host, address) {
        Ok(listener) => Ok(listener),
        Err(error) => Err(address_fault(address, error)),
    }
}

/// Returns the fault of a command for the fault of its run.
pub fn fault_of_run(fault: RunFault) -> CommandFault
    ensures { result ≡ fault_of_run fault }
{
    match fault {
        RunFault::Script(line) => CommandFault::Script { line },
        RunFault::Start(code, context) => CommandFault::Start { code, context },
        RunFault::Output => CommandFault::Output,
        RunFault::NoMemory => CommandFault::NoMemory,
        RunFault::Connection => CommandFault::Socket(SocketFault::Accept),
    }
}

/// Returns the fault for an address that is not available.
pub(crate) fn address_fault(address: SocketAddr, error: io::Error) -> CommandFault {
    CommandFault::Socket(SocketFault::Address(address, Unavailable::of(error.kind())))
}

/// Returns the fault for a file that cannot be used.
pub(crate) fn file_fault(alloc: Global, name: &str, error: io::Error) -> CommandFault {
    unavailable(alloc, name, Unavailable::of(error.kind()))
}

/// Returns the fault for a socket file that cannot be used. Its name is limited more than those of other files.
pub(crate) fn socket_file_fault(alloc: Global, name: &str, error: io::Error) -> CommandFault
    ensures { IsBroken name.now result }
{
    let why = match error.kind() {
        ErrorKind::InvalidInput => refused_name(name),
        kind => Unavailable::of(kind),
    };
    unavailable(alloc, name, why)
}

/// Returns the fault for a descriptor of signals that cannot be used.
pub(crate) fn signals_fault(alloc: Global, descriptor: u32) -> CommandFault {
    match format!(in alloc; "descriptor {descriptor}") {
        Ok(name) => CommandFault::File(Text::from_string(name), Unavailable::NoSignals),
        Err(_) => CommandFault::NoMemory,
    }
}

fn unavailable(alloc: Global, name: &str, why: Unavailable) -> CommandFault
    ensures { IsBroken name.now result }
{
    match Text::copy_of(alloc, name) {
        Ok(name) => CommandFault::File(name, why),
        Err(NoMemory) => CommandFault::NoMemory,
    }
}

/// Returns why no socket can have the name: it is empty, as no file's is, or too long.
fn refused_name(name: &str) -> Unavailable {
    if name.is_empty() {
        Unavailable::Missing
    } else {
        Unavailable::LongName
    }
}
