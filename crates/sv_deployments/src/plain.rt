//! Plain text responses, and calls whose faults are ignored.

ghost use Rattle.sv_deployments.specs.Leaving.{LeavesCaller, LeavesFields};
ghost use Rattle.sv_exchange.specs.Changing.{Reaches};

use sv_component::{Exchange, ExchangeFault, Step};
use sv_text::NoMemory;

/// Sets the content type to plain text. Faults of the exchange are ignored, except running out of memory.
pub(crate) fn set_plain(exchange: &mut Exchange) -> Result<(), NoMemory>
    ensures fields { LeavesFields exchange.old exchange.new }
    ensures caller { LeavesCaller exchange.old exchange.new }
    ensures reached { Reaches exchange.old exchange.new }
{
    unless_refused(exchange.set_header("content-type", "text/plain"))
}

/// Sets the content type to plain text and writes the text. Faults of the exchange are ignored, except running out of
/// memory.
pub(crate) fn write_plain(exchange: &mut Exchange, text: &[u8]) -> Result<(), NoMemory>
    ensures fields { LeavesFields exchange.old exchange.new }
    ensures caller { LeavesCaller exchange.old exchange.new }
    ensures reached { Reaches exchange.old exchange.new }
{
    set_plain(exchange)?;
    write(exchange, text)
}

/// Writes the text. Faults of the exchange are ignored, except running out of memory.
pub(crate) fn write(exchange: &mut Exchange, text: &[u8]) -> Result<(), NoMemory>
    ensures fields { LeavesFields exchange.old exchange.new }
    ensures caller { LeavesCaller exchange.old exchange.new }
    ensures reached { Reaches exchange.old exchange.new }
{
    unless_refused(exchange.write(text))
}

/// Logs the caller out, if there is one. Faults of the exchange are ignored, except running out of memory.
pub(crate) fn drop_caller(exchange: &mut Exchange) -> Result<(), NoMemory>
    ensures fields { LeavesFields exchange.old exchange.new }
    ensures reached { Reaches exchange.old exchange.new }
{
    unless_refused(exchange.logout())
}

/// Returns the error of a call that ran out of memory. Any other fault is ignored.
pub(crate) fn unless_refused(done: Result<bool, ExchangeFault>) -> Result<(), NoMemory> {
    match done {
        Err(ExchangeFault::NoMemory) => Err(NoMemory),
        Err(_) | Ok(_) => Ok(()),
    }
}

/// Returns the step of a servlet that has written its response.
pub(crate) fn done(written: Result<(), NoMemory>) -> Step {
    match written {
        Ok(()) => Step::Done,
        Err(_) => Step::NoMemory,
    }
}
