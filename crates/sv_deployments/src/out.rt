//! A servlet that logs the caller out.

ghost use Rattle.sv_deployments.specs.Leaving.{LeavesFields};
ghost use Rattle.sv_exchange.specs.Changing.{Reaches};

use crate::plain::{done, drop_caller, write_plain};
use std::alloc::Global;
use sv_component::{Config, Exchange, Init, Servlet, Step};
use sv_text::NoMemory;

/// Logs the caller out, if there is one, and writes a line.
#[derive(Drop)]
pub struct Out {}

impl Out {
    /// Creates a servlet that is not yet initialized.
    pub fn new() -> Out {
        Out {}
    }
}

impl Servlet for Out {
    ghost use Rattle.sv_deployments.specs.Leaving.{CallLeavesFields};

    ghost servlet_step = { λ _ call _. CallLeavesFields call };

    fn init(&mut self, _alloc: Global, _config: &Config) -> Init {
        Init::Ready
    }

    fn service(&mut self, _alloc: Global, exchange: &mut Exchange, _turn: u32) -> Step {
        done(log_out(exchange))
    }

    fn destroy(&mut self) {}
}

fn log_out(exchange: &mut Exchange) -> Result<(), NoMemory>
    ensures fields { LeavesFields exchange.old exchange.new }
    ensures reached { Reaches exchange.old exchange.new }
{
    drop_caller(exchange)?;
    write_plain(exchange, b"out\n")
}
