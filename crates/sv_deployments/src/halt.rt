//! A filter that responds instead of the rest of the chain.

use crate::plain::write_plain;
use std::alloc::Global;
use sv_component::{Config, Exchange, Filter, Gate, Init};
use sv_text::NoMemory;

/// Writes a line and stops the chain.
#[derive(Drop)]
pub struct Halt {}

impl Halt {
    /// Creates a filter that is not yet initialized.
    pub fn new() -> Halt {
        Halt {}
    }
}

impl Filter for Halt {
    ghost use Rattle.sv_deployments.specs.Leaving.{CallLeavesBoth};

    ghost filter_step = { λ _ call _. CallLeavesBoth call };

    fn init(&mut self, _alloc: Global, _config: &Config) -> Init {
        Init::Ready
    }

    fn before(&mut self, _alloc: Global, exchange: &mut Exchange) -> Gate {
        match write_plain(exchange, b"halt\n") {
            Ok(()) => Gate::Stop,
            Err(_) => Gate::NoMemory,
        }
    }

    fn after(&mut self, _alloc: Global, _exchange: &mut Exchange) -> Result<(), NoMemory> {
        Ok(())
    }

    fn destroy(&mut self) {}
}
