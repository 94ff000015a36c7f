//! A servlet that counts in the session.

ghost use Rattle.sv_deployments.specs.Leaving.{LeavesCaller, LeavesFields};
ghost use Rattle.sv_exchange.specs.Changing.{Reaches};

use crate::parameter::number;
use crate::plain::{done, set_plain, unless_refused, write};
use std::alloc::Global;
use sv_component::{Config, Exchange, ExchangeFault, Init, Servlet, Step};
use sv_text::{NoMemory, Text};

/// Opens the session, increments the number in its attribute `n`, and writes it. An attribute without a number counts
/// as 0, and the greatest number stays. If no session can be opened, the response is an error 503.
#[derive(Drop)]
pub struct Keep {}

impl Keep {
    /// Creates a servlet that is not yet initialized.
    pub fn new() -> Keep {
        Keep {}
    }
}

impl Servlet for Keep {
    ghost use Rattle.sv_deployments.specs.Leaving.{CallLeavesBoth};

    ghost servlet_step = { λ _ call _. CallLeavesBoth call };

    fn init(&mut self, _alloc: Global, _config: &Config) -> Init {
        Init::Ready
    }

    fn service(&mut self, alloc: Global, exchange: &mut Exchange, _turn: u32) -> Step {
        match open_session(exchange) {
            Ok(_) => done(count(alloc, exchange)),
            Err(ExchangeFault::NoMemory) => Step::NoMemory,
            Err(_) => full(alloc),
        }
    }

    fn destroy(&mut self) {}
}

fn full(alloc: Global) -> Step {
    match Text::copy_of(alloc, "full") {
        Ok(text) => Step::Error(503, text),
        Err(_) => Step::NoMemory,
    }
}

fn count(alloc: Global, exchange: &mut Exchange) -> Result<(), NoMemory>
    ensures fields { LeavesFields exchange.old exchange.new }
    ensures caller { LeavesCaller exchange.old exchange.new }
    ensures reached { Reaches exchange.old exchange.new }
{
    let count = number(exchange.session_get("n").unwrap_or("")).saturating_add(1);
    set_plain(exchange)?;
    let value = format!(in alloc; "{count}")?;
    set_count(exchange, value.as_str())?;
    let line = format!(in alloc; "n={count}\n")?;
    write(exchange, line.as_bytes())
}

fn open_session(exchange: &mut Exchange) -> Result<bool, ExchangeFault>
    ensures fields { LeavesFields exchange.old exchange.new }
    ensures caller { LeavesCaller exchange.old exchange.new }
    ensures reached { Reaches exchange.old exchange.new }
{
    exchange.session_open()
}

fn set_count(exchange: &mut Exchange, count: &str) -> Result<(), NoMemory>
    ensures fields { LeavesFields exchange.old exchange.new }
    ensures caller { LeavesCaller exchange.old exchange.new }
    ensures reached { Reaches exchange.old exchange.new }
{
    unless_refused(exchange.session_set("n", count))
}
