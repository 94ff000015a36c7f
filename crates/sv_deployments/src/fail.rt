//! A servlet that fails.

ghost use Rattle.std.specs.Prelude.{◌≡◌, []};

use crate::parameter::{keep_parameter, no_text};
use std::alloc::Global;
use sv_component::{Config, Exchange, Init, Servlet, Step};
use sv_text::{NoMemory, Text};

/// Fails with the kind that its parameter `kind` names.
#[derive(Drop)]
pub struct Fail {
    kind: Text,
}

impl Fail {
    /// Creates a servlet that is not yet initialized.
    pub fn new(alloc: Global) -> Fail
        ensures { result ≡ record { kind = [] } }
    {
        Fail {
            kind: no_text(alloc),
        }
    }

    fn failure(&self, alloc: Global) -> Result<Step, NoMemory> {
        let kind = Text::copy_of(alloc, self.kind.as_str())?;
        Ok(Step::Failed(kind, Text::copy_of(alloc, "failed")?))
    }
}

impl Servlet for Fail {
    ghost use Rattle.sv_deployments.specs.Leaving.{CallLeavesBoth};

    ghost servlet_step = { λ _ call _. CallLeavesBoth call };

    fn init(&mut self, alloc: Global, config: &Config) -> Init {
        keep_parameter(alloc, config, "kind", &mut self.kind)
    }

    fn service(&mut self, alloc: Global, _exchange: &mut Exchange, _turn: u32) -> Step {
        match self.failure(alloc) {
            Ok(step) => step,
            Err(_) => Step::NoMemory,
        }
    }

    fn destroy(&mut self) {}
}
