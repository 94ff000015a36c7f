//! A servlet that ends the session.

ghost use Rattle.sv_deployments.specs.Leaving.{LeavesFields};
ghost use Rattle.sv_exchange.specs.Changing.{Reaches};

use crate::plain::{done, unless_refused, write_plain};
use std::alloc::Global;
use sv_component::{Config, Exchange, Init, Servlet, Step};
use sv_text::NoMemory;

/// Ends the session, if there is one, and writes a line.
#[derive(Drop)]
pub struct Bye {}

impl Bye {
    /// Creates a servlet that is not yet initialized.
    pub fn new() -> Bye {
        Bye {}
    }
}

impl Servlet for Bye {
    ghost use Rattle.sv_deployments.specs.Leaving.{CallLeavesFields};

    ghost servlet_step = { λ _ call _. CallLeavesFields call };

    fn init(&mut self, _alloc: Global, _config: &Config) -> Init {
        Init::Ready
    }

    fn service(&mut self, _alloc: Global, exchange: &mut Exchange, _turn: u32) -> Step {
        done(end_session(exchange))
    }

    fn destroy(&mut self) {}
}

fn end_session(exchange: &mut Exchange) -> Result<(), NoMemory>
    ensures fields { LeavesFields exchange.old exchange.new }
    ensures reached { Reaches exchange.old exchange.new }
{
    drop_session(exchange)?;
    write_plain(exchange, b"bye\n")
}

fn drop_session(exchange: &mut Exchange) -> Result<(), NoMemory>
    ensures fields { LeavesFields exchange.old exchange.new }
    ensures reached { Reaches exchange.old exchange.new }
{
    unless_refused(exchange.session_end())
}
