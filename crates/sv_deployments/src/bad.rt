//! A filter that does not start.

use std::alloc::Global;
use sv_component::{Config, Exchange, Filter, Gate, Init};
use sv_text::NoMemory;

/// Fails its initialization, so that its context does not start.
#[derive(Drop)]
pub struct Bad {}

impl Bad {
    /// Creates a filter that is not yet initialized.
    pub fn new() -> Bad {
        Bad {}
    }
}

impl Filter for Bad {
    ghost use Rattle.sv_deployments.specs.Leaving.{CallLeavesBoth};

    ghost filter_step = { λ _ call _. CallLeavesBoth call };

    fn init(&mut self, _alloc: Global, _config: &Config) -> Init {
        Init::Failed
    }

    fn before(&mut self, _alloc: Global, _exchange: &mut Exchange) -> Gate {
        Gate::Pass
    }

    fn after(&mut self, _alloc: Global, _exchange: &mut Exchange) -> Result<(), NoMemory> {
        Ok(())
    }

    fn destroy(&mut self) {}
}
