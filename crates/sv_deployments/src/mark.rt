//! A filter that adds its name to the response.

ghost use Rattle.std.specs.Prelude.{◌≡◌, []};
ghost use Rattle.sv_deployments.specs.Leaving.{LeavesCaller, LeavesFields};
ghost use Rattle.sv_exchange.specs.Changing.{Reaches};

use crate::plain::unless_refused;
use std::alloc::Global;
use sv_component::{Config, Exchange, Filter, Gate, Init};
use sv_text::{NoMemory, Text};

/// Adds a header field `x-mark` with the filter's name, and continues the chain. A name that is not a valid field value
/// is not added.
#[derive(Drop)]
pub struct Mark {
    name: Text,
}

impl Mark {
    /// Creates a filter that is not yet initialized.
    pub fn new(alloc: Global) -> Mark
        ensures { result ≡ record { name = [] } }
    {
        Mark {
            name: Text::from_string(String::new(alloc)),
        }
    }
}

impl Filter for Mark {
    ghost use Rattle.sv_deployments.specs.Leaving.{CallLeavesBoth};

    ghost filter_step = { λ _ call _. CallLeavesBoth call };

    fn init(&mut self, alloc: Global, config: &Config) -> Init {
        match Text::copy_of(alloc, config.name.as_str()) {
            Ok(name) => {
                self.name = name;
                Init::Ready
            }
            Err(_) => Init::NoMemory,
        }
    }

    fn before(&mut self, _alloc: Global, exchange: &mut Exchange) -> Gate {
        match add_mark(exchange, self.name.as_str()) {
            Ok(()) => Gate::Pass,
            Err(_) => Gate::NoMemory,
        }
    }

    fn after(&mut self, _alloc: Global, _exchange: &mut Exchange) -> Result<(), NoMemory> {
        Ok(())
    }

    fn destroy(&mut self) {}
}

fn add_mark(exchange: &mut Exchange, name: &str) -> Result<(), NoMemory>
    ensures fields { LeavesFields exchange.old exchange.new }
    ensures caller { LeavesCaller exchange.old exchange.new }
    ensures reached { Reaches exchange.old exchange.new }
{
    unless_refused(exchange.add_header("x-mark", name))
}
