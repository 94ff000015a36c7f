//! A servlet that writes the caller's name.

ghost use Rattle.sv_deployments.specs.Leaving.{LeavesCaller, LeavesFields};
ghost use Rattle.sv_exchange.specs.Changing.{Reaches};

use crate::plain::{done, write_plain};
use std::alloc::Global;
use sv_component::{Config, Exchange, Init, Servlet, Step};
use sv_text::{NoMemory, Text};

// The text before the caller's name.
const FRONT: &str = "caller ";

/// Writes a line with the caller's name, or `-` if there is none.
#[derive(Drop)]
pub struct Who {}

impl Who {
    /// Creates a servlet that is not yet initialized.
    pub fn new() -> Who {
        Who {}
    }
}

impl Servlet for Who {
    ghost use Rattle.sv_deployments.specs.Leaving.{CallLeavesBoth};

    ghost servlet_step = { λ _ call _. CallLeavesBoth call };

    fn init(&mut self, _alloc: Global, _config: &Config) -> Init {
        Init::Ready
    }

    fn service(&mut self, alloc: Global, exchange: &mut Exchange, _turn: u32) -> Step {
        done(write_caller(alloc, exchange))
    }

    fn destroy(&mut self) {}
}

fn write_caller(alloc: Global, exchange: &mut Exchange) -> Result<(), NoMemory>
    ensures fields { LeavesFields exchange.old exchange.new }
    ensures caller { LeavesCaller exchange.old exchange.new }
    ensures reached { Reaches exchange.old exchange.new }
{
    let line = line_of(alloc, caller_name(exchange))?;
    write_plain(exchange, line.as_bytes())
}

// Returns the line for a caller's name. The line of a short name allocates no memory.
fn line_of(alloc: Global, name: &str) -> Result<Text, NoMemory> {
    let mut line = Text::with_room(alloc, name.len() + FRONT.len() + 1)?;
    line.push_str(alloc, FRONT)?;
    line.push_str(alloc, name)?;
    line.push_str(alloc, "\n")?;
    Ok(line)
}

fn caller_name(exchange: &Exchange) -> &str {
    match exchange.caller() {
        Some(caller) => caller.name.as_str(),
        None => "-",
    }
}
