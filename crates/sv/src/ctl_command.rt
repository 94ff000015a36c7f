//! The command `ctl`: sends a line to the server at a control socket.

ghost use Rattle.std.specs.Prelude.{◌≡◌, ◌≢◌, IfErr, map, string_bytes};
ghost use Rattle.sv_control_words.specs.ControlRequest.{line_of};
ghost use Rattle.sv_listening.specs.Controlling.{Answers};

use std::alloc::Global;
use std::io::Write;
use std::net::Net;
use sv_control_words::ControlRequest;
use sv_listening::ask_control;
use sv_program::CommandFault;

/// Sends the line of the request to the server at its socket, and writes the reply. That to `stop` ends when the server
/// has ended.
///
/// # Errors
/// Those of [`ask_control`], and [`CommandFault::NoMemory`].
pub fn ctl<H: Net, W: Write>(
    alloc: Global,
    host: &H,
    writer: &mut W,
    request: &ControlRequest<'_>,
) -> Result<(), CommandFault>
    ensures run { Answers request.now.socket.now (line_of (map string_bytes request.now.words.now)) result (W.contents writer.old) (W.contents writer.new) }
    ensures untouched { IfErr result (λ fault. fault ≢ CommandFault.Output → writer.new ≡ writer.old) }
{
    let line = request.line(alloc)?;
    ask_control(alloc, host, writer, request.socket, line.as_str())
}
