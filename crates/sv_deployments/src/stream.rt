//! A servlet that sends its response in pieces.

ghost use Rattle.std.specs.Prelude.{◌≡◌, []};
ghost use Rattle.sv_deployments.specs.Leaving.{LeavesCaller, LeavesFields};
ghost use Rattle.sv_exchange.specs.Changing.{Reaches};

use crate::parameter::{keep_parameter, no_text};
use crate::plain::{unless_refused, write, write_plain};
use std::alloc::Global;
use sv_component::{Config, Exchange, Init, Servlet, Step};
use sv_text::{NoMemory, Text};

/// Writes a line, flushes, and writes another. Then it fails with the kind in its parameter `kind`, unless that is
/// empty.
#[derive(Drop)]
pub struct Stream {
    kind: Text,
}

impl Stream {
    /// Creates a servlet that is not yet initialized.
    pub fn new(alloc: Global) -> Stream
        ensures { result ≡ record { kind = [] } }
    {
        Stream {
            kind: no_text(alloc),
        }
    }

    fn ending(&self, alloc: Global) -> Result<Step, NoMemory> {
        if self.kind.as_str().is_empty() {
            return Ok(Step::Done);
        }
        let kind = Text::copy_of(alloc, self.kind.as_str())?;
        Ok(Step::Failed(kind, Text::copy_of(alloc, "failed")?))
    }
}

impl Servlet for Stream {
    ghost use Rattle.sv_deployments.specs.Leaving.{CallLeavesBoth};

    ghost servlet_step = { λ _ call _. CallLeavesBoth call };

    fn init(&mut self, alloc: Global, config: &Config) -> Init {
        keep_parameter(alloc, config, "kind", &mut self.kind)
    }

    fn service(&mut self, alloc: Global, exchange: &mut Exchange, _turn: u32) -> Step {
        let Ok(()) = write_in_pieces(exchange) else {
            return Step::NoMemory;
        };
        match self.ending(alloc) {
            Ok(step) => step,
            Err(_) => Step::NoMemory,
        }
    }

    fn destroy(&mut self) {}
}

fn write_in_pieces(exchange: &mut Exchange) -> Result<(), NoMemory>
    ensures fields { LeavesFields exchange.old exchange.new }
    ensures caller { LeavesCaller exchange.old exchange.new }
    ensures reached { Reaches exchange.old exchange.new }
{
    write_plain(exchange, b"one\n")?;
    flush(exchange)?;
    write(exchange, b"two\n")
}

fn flush(exchange: &mut Exchange) -> Result<(), NoMemory>
    ensures fields { LeavesFields exchange.old exchange.new }
    ensures caller { LeavesCaller exchange.old exchange.new }
    ensures reached { Reaches exchange.old exchange.new }
{
    unless_refused(exchange.flush())
}
