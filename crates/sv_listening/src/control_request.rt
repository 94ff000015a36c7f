//! A line for the server at a control socket, and its reply.

ghost use Rattle.std.specs.Prelude.{◌≡◌, ◌≢◌, IfErr, IfOk, IfSome, OnOk};
ghost use Rattle.std.specs.Io.KnownBytes.{Appends};
ghost use Rattle.sv_listening.specs.Controlling as spec;

use crate::limits::{REPLY_SECONDS, STOP_SECONDS};
use crate::sockets::socket_file_fault;
use std::alloc::Global;
use std::io;
use std::io::{ErrorKind, Read, Write};
use std::net::Net;
use std::os::unix::net::UnixStream;
use std::time::Duration;
use sv_program::{CommandFault, Refusal};

/// Sends the line to the server at this control socket, and writes the reply once the connection has ended. The server
/// ends it after the reply; that to the line `stop` ends when the server has ended. Each read waits for at most
/// [`REPLY_SECONDS`], or [`STOP_SECONDS`] for `stop`.
///
/// # Errors
/// [`CommandFault::File`] if the socket cannot be used; [`CommandFault::Refused`] if the reply is a refusal, incomplete
/// or late; [`CommandFault::NoMemory`]. Nothing is then written. Or [`CommandFault::Output`].
pub fn ask_control<H: Net, W: Write>(
    alloc: Global,
    host: &H,
    writer: &mut W,
    socket: &str,
    line: &str,
) -> Result<(), CommandFault>
    ensures run { spec.Answers socket.now line.now result (W.contents writer.old) (W.contents writer.new) }
    ensures untouched { IfErr result (λ fault. fault ≢ CommandFault.Output → writer.new ≡ writer.old) }
{
    let stream = match connected(host, socket, line) {
        Ok(stream) => stream,
        Err(error) => return Err(broken(alloc, socket, error)),
    };
    converse(alloc, socket, line, &stream, &mut &stream, writer)
}

// Returns a connection to the socket. Its reads are bounded in time.
fn connected<H: Net>(host: &H, socket: &str, line: &str) -> io::Result<UnixStream> {
    let stream = UnixStream::connect(host, socket)?;
    stream.set_read_timeout(Some(Duration::from_secs(seconds_for(line))))?;
    Ok(stream)
}

// Returns the seconds that a read of the reply to the line may wait.
fn seconds_for(line: &str) -> u64
    ensures { result ≡ spec.seconds_for line.now }
{
    if line == "stop\n" {
        STOP_SECONDS
    } else {
        REPLY_SECONDS
    }
}

/// Sends the line, reads the reply to the end of the stream, and writes it. The reader and the sender are those of a
/// connection to the socket of this name.
///
/// # Errors
/// Those of [`ask_control`].
pub fn converse<R: Read + Drop, S: Write, W: Write>(
    alloc: Global,
    socket: &str,
    line: &str,
    reader: R,
    sender: &mut S,
    writer: &mut W,
) -> Result<(), CommandFault>
    ensures run { spec.Converses socket.now line.now (R.remaining reader) result (S.contents sender.old) (S.contents sender.new) (W.contents writer.old) (W.contents writer.new) }
    ensures untouched { IfErr result (λ fault. fault ≢ CommandFault.Output → writer.new ≡ writer.old) }
{
    let reply = match reply_to(alloc, line, reader, sender) {
        Ok(reply) => reply,
        Err(error) => return Err(broken(alloc, socket, error)),
    };
    match refusal_of(line.as_bytes(), reply.as_slice()) {
        Some(refusal) => Err(CommandFault::Refused(refusal)),
        None => match write_reply(writer, reply.as_slice()) {
            Ok(()) => Ok(()),
            Err(_) => Err(CommandFault::Output),
        },
    }
}

// Sends the line, and returns the reply.
fn reply_to<R: Read + Drop, S: Write>(
    alloc: Global,
    line: &str,
    reader: R,
    sender: &mut S,
) -> io::Result<Vec<u8>>
    ensures sent { OnOk result (Appends (S.contents sender.old) (S.contents sender.new) line.now) }
    ensures reply { IfOk result (λ reply. IfSome (R.remaining reader) (λ bytes. reply.items ≡ bytes)) }
{
    sender.write_all(line.as_bytes())?;
    sender.flush()?;
    let mut reader = reader;
    let mut reply = Vec::new(alloc);
    reader.read_to_end(&mut reply)?;
    Ok(reply)
}

// Writes the reply, and flushes the writer.
fn write_reply<W: Write>(writer: &mut W, reply: &[u8]) -> io::Result<()>
    ensures { OnOk result (Appends (W.contents writer.old) (W.contents writer.new) reply.now) }
{
    writer.write_all(reply)?;
    writer.flush()
}

// Returns the fault for a connection that cannot be opened or breaks.
fn broken(alloc: Global, socket: &str, error: io::Error) -> CommandFault
    ensures { spec.IsBroken socket.now result }
{
    match error.kind() {
        ErrorKind::OutOfMemory => CommandFault::NoMemory,
        ErrorKind::WouldBlock => CommandFault::Refused(Refusal::Late),
        ErrorKind::ConnectionReset => CommandFault::Refused(Refusal::Cut),
        ErrorKind::BrokenPipe => CommandFault::Refused(Refusal::Cut),
        _ => socket_file_fault(alloc, socket, error),
    }
}

/// Returns why the server did not do what the line asked for, if the reply says so or is incomplete.
pub fn refusal_of(line: &[u8], reply: &[u8]) -> Option<Refusal>
    ensures { result ≡ spec.refusal_of line.now reply.now }
{
    match refusal_in(reply) {
        Some(refusal) => Some(refusal),
        None => other_refusal(line, reply),
    }
}

// Returns the refusal that a reply is to any line.
fn refusal_in(reply: &[u8]) -> Option<Refusal>
    ensures { result ≡ spec.refusal_in reply.now }
{
    if reply == b"unknown\n".as_slice() {
        Some(Refusal::Unknown)
    } else if reply == b"edit refused 1\n".as_slice() {
        Some(Refusal::NoSuch)
    } else if reply == b"edit refused 2\n".as_slice() {
        Some(Refusal::TooMany)
    } else if reply == b"edit refused 3\n".as_slice() {
        Some(Refusal::NumberSpent)
    } else if reply == b"edit refused 4\n".as_slice() {
        Some(Refusal::NoMemory)
    } else if reply == b"no memory\n".as_slice() {
        Some(Refusal::NoMemory)
    } else if reply == b"method\n".as_slice() {
        Some(Refusal::Method)
    } else if reply == b"user\n".as_slice() {
        Some(Refusal::User)
    } else {
        None
    }
}

// Returns the refusal that a reply is only to some lines: the server is stopping, or the reply is incomplete.
fn other_refusal(line: &[u8], reply: &[u8]) -> Option<Refusal>
    ensures { result ≡ spec.other_refusal line.now reply.now }
{
    if reply == b"stopping\n".as_slice() && line != b"stop\n".as_slice() {
        Some(Refusal::Stopping)
    } else if is_complete(line, reply) {
        None
    } else {
        Some(Refusal::Cut)
    }
}

// Whether a reply to the line is complete: it ends with a line feed, or is empty and the line asks for a list.
fn is_complete(line: &[u8], reply: &[u8]) -> bool
    ensures { result ≡ spec.is_complete line.now reply.now }
{
    match reply.last() {
        Some(last) => *last == b'\n',
        None => asks_for_list(line),
    }
}

fn asks_for_list(line: &[u8]) -> bool
    ensures { result ≡ spec.asks_for_list line.now }
{
    line == b"constraints\n".as_slice() || line == b"uncovered\n".as_slice()
}
