//! A servlet that writes its paths.

ghost use Rattle.sv_deployments.specs.Leaving.{LeavesCaller, LeavesFields};
ghost use Rattle.sv_exchange.specs.Changing.{Reaches};

use crate::plain::{done, write_plain};
use std::alloc::Global;
use sv_component::{Config, Exchange, Init, Servlet, Step};
use sv_text::NoMemory;

/// Writes a line with the servlet path and the path info, or `-` if there is none (Jakarta Servlet 6.0, section 3.5).
#[derive(Drop)]
pub struct Paths {}

impl Paths {
    /// Creates a servlet that is not yet initialized.
    pub fn new() -> Paths {
        Paths {}
    }
}

impl Servlet for Paths {
    ghost use Rattle.sv_deployments.specs.Leaving.{CallLeavesBoth};

    ghost servlet_step = { λ _ call _. CallLeavesBoth call };

    fn init(&mut self, _alloc: Global, _config: &Config) -> Init {
        Init::Ready
    }

    fn service(&mut self, alloc: Global, exchange: &mut Exchange, _turn: u32) -> Step {
        done(write_paths(alloc, exchange))
    }

    fn destroy(&mut self) {}
}

fn write_paths(alloc: Global, exchange: &mut Exchange) -> Result<(), NoMemory>
    ensures fields { LeavesFields exchange.old exchange.new }
    ensures caller { LeavesCaller exchange.old exchange.new }
    ensures reached { Reaches exchange.old exchange.new }
{
    let servlet = exchange.servlet_path();
    let info = exchange.path_info().unwrap_or("-");
    let line = format!(in alloc; "servlet={servlet} info={info}\n")?;
    write_plain(exchange, line.as_bytes())
}
