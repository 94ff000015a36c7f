//! A servlet that forwards.

ghost use Rattle.std.specs.Prelude.{◌≡◌, []};

use crate::parameter::{keep_parameter, no_text};
use std::alloc::Global;
use sv_component::{Config, Exchange, Init, Servlet, Step};
use sv_text::Text;

/// Forwards to the path in its parameter `path`.
#[derive(Drop)]
pub struct Go {
    path: Text,
}

impl Go {
    /// Creates a servlet that is not yet initialized.
    pub fn new(alloc: Global) -> Go
        ensures { result ≡ record { path = [] } }
    {
        Go {
            path: no_text(alloc),
        }
    }
}

impl Servlet for Go {
    ghost use Rattle.sv_deployments.specs.Leaving.{CallLeavesBoth};

    ghost servlet_step = { λ _ call _. CallLeavesBoth call };

    fn init(&mut self, alloc: Global, config: &Config) -> Init {
        keep_parameter(alloc, config, "path", &mut self.path)
    }

    fn service(&mut self, alloc: Global, _exchange: &mut Exchange, _turn: u32) -> Step {
        match Text::copy_of(alloc, self.path.as_str()) {
            Ok(path) => Step::Forward(path),
            Err(_) => Step::NoMemory,
        }
    }

    fn destroy(&mut self) {}
}
