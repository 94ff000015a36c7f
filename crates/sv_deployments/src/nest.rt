//! A servlet that includes a path.

ghost use Rattle.std.specs.Prelude.{◌≡◌, []};
ghost use Rattle.sv_deployments.specs.Leaving.{LeavesCaller, LeavesFields};
ghost use Rattle.sv_exchange.specs.Changing.{Reaches};

use crate::parameter::{keep_parameter, no_text};
use crate::plain::{done, unless_refused, write, write_plain};
use std::alloc::Global;
use sv_component::{Config, Exchange, Init, Servlet, Step};
use sv_mapping::Kind;
use sv_text::{NoMemory, Text};

/// Counts its calls. On the first turn it writes a line with `a` and the count, and includes the path in its parameter
/// `path`. When included itself, it sets a header field, which has no effect, and writes a line with `b`. After its
/// include returns, it writes a line with `c`. The count stays at the greatest number.
#[derive(Drop)]
pub struct Nest {
    path: Text,
    calls: u64,
}

impl Nest {
    /// Creates a servlet that is not yet initialized.
    pub fn new(alloc: Global) -> Nest
        ensures { result ≡ record { path = []; calls = 0 } }
    {
        Nest {
            path: no_text(alloc),
            calls: 0,
        }
    }

    // Writes the first line and requests the include.
    fn include(&self, alloc: Global, exchange: &mut Exchange) -> Result<Step, NoMemory>
        ensures fields { LeavesFields exchange.old exchange.new }
        ensures caller { LeavesCaller exchange.old exchange.new }
        ensures reached { Reaches exchange.old exchange.new }
    {
        let line = format!(in alloc; "a{}\n", self.calls)?;
        write_plain(exchange, line.as_bytes())?;
        Ok(Step::Include(Text::copy_of(alloc, self.path.as_str())?))
    }
}

impl Servlet for Nest {
    ghost use Rattle.sv_deployments.specs.Leaving.{CallLeavesBoth};

    ghost servlet_step = { λ _ call _. CallLeavesBoth call };

    fn init(&mut self, alloc: Global, config: &Config) -> Init {
        keep_parameter(alloc, config, "path", &mut self.path)
    }

    fn service(&mut self, alloc: Global, exchange: &mut Exchange, turn: u32) -> Step {
        self.calls = self.calls.saturating_add(1);
        if turn > 0 {
            return done(write_line(alloc, exchange, "c", self.calls));
        }
        if matches!(exchange.kind(), Kind::Include) {
            return done(write_included(alloc, exchange, self.calls));
        }
        match self.include(alloc, exchange) {
            Ok(step) => step,
            Err(_) => Step::NoMemory,
        }
    }

    fn destroy(&mut self) {}
}

fn write_included(alloc: Global, exchange: &mut Exchange, calls: u64) -> Result<(), NoMemory>
    ensures fields { LeavesFields exchange.old exchange.new }
    ensures caller { LeavesCaller exchange.old exchange.new }
    ensures reached { Reaches exchange.old exchange.new }
{
    set_included(exchange)?;
    write_line(alloc, exchange, "b", calls)
}

fn set_included(exchange: &mut Exchange) -> Result<(), NoMemory>
    ensures fields { LeavesFields exchange.old exchange.new }
    ensures caller { LeavesCaller exchange.old exchange.new }
    ensures reached { Reaches exchange.old exchange.new }
{
    unless_refused(exchange.set_header("x-in", "1"))
}

fn write_line(
    alloc: Global,
    exchange: &mut Exchange,
    word: &str,
    calls: u64,
) -> Result<(), NoMemory>
    ensures fields { LeavesFields exchange.old exchange.new }
    ensures caller { LeavesCaller exchange.old exchange.new }
    ensures reached { Reaches exchange.old exchange.new }
{
    let line = format!(in alloc; "{word}{calls}\n")?;
    write(exchange, line.as_bytes())
}
