//! Writing lines, texts and faults.

ghost use Rattle.std.specs.Prelude.{◌≡◌, [], ◌∷◌, ◌++◌, IfErr, OnOk};
ghost use Rattle.std.specs.Io.KnownBytes.{Appends};
ghost use Rattle.std.specs.Process.{exit_status};

use crate::command_fault::CommandFault;
use std::fmt::Display;
use std::io;
use std::io::Write;
use std::process::ExitCode;

/// Writes the line and a line feed, and flushes the writer.
///
/// # Errors
/// [`CommandFault::Output`], after which a part may have been written.
pub fn print_line<W: Write>(writer: &mut W, line: &str) -> Result<(), CommandFault>
    ensures written { OnOk result (Appends (W.contents writer.old) (W.contents writer.new) (line.now ++ 10 ∷ [])) }
    ensures fault { IfErr result (λ fault. fault ≡ CommandFault.Output) }
{
    match write_line(writer, line) {
        Ok(()) => Ok(()),
        Err(_) => Err(CommandFault::Output),
    }
}

fn write_line<W: Write>(writer: &mut W, line: &str) -> io::Result<()>
    ensures { OnOk result (Appends (W.contents writer.old) (W.contents writer.new) (line.now ++ 10 ∷ [])) }
{
    writer.writeln(line)?;
    writer.flush()
}

/// Writes the text, and flushes the writer.
///
/// # Errors
/// [`CommandFault::Output`], after which a part may have been written.
pub fn print_text<W: Write>(writer: &mut W, text: &str) -> Result<(), CommandFault>
    ensures written { OnOk result (Appends (W.contents writer.old) (W.contents writer.new) text.now) }
    ensures fault { IfErr result (λ fault. fault ≡ CommandFault.Output) }
{
    match write_text(writer, text) {
        Ok(()) => Ok(()),
        Err(_) => Err(CommandFault::Output),
    }
}

fn write_text<W: Write>(writer: &mut W, text: &str) -> io::Result<()>
    ensures { OnOk result (Appends (W.contents writer.old) (W.contents writer.new) text.now) }
{
    writer.write_all(text.as_bytes())?;
    writer.flush()
}

/// Reports a fault on standard error: its line, and then the detail that says why, if there is one. Returns the exit
/// status, which reports the fault also if standard error cannot be written.
pub fn report_fault<R: Eprint, F: Display, D: Display + Drop>(
    rt: &R,
    fault: &F,
    detail: Option<D>,
    status: u8,
) -> ExitCode
    ensures { exit_status result ≡ status }
{
    let _ = eprintln!(rt; "{fault}");
    if let Some(detail) = detail {
        let _ = eprintln!(rt; "{detail}");
    }
    ExitCode::from(status)
}
