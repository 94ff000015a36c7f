//! A servlet that is out of service.

ghost use Rattle.std.specs.Prelude.{◌≡◌};

use crate::parameter::number;
use std::alloc::Global;
use sv_component::{Config, Exchange, Init, Servlet, Step};

/// Is unavailable for the seconds in its parameter `seconds`, or permanently if that is empty.
#[derive(Drop)]
pub struct Gone {
    seconds: Option<u32>,
}

impl Gone {
    /// Creates a servlet that is not yet initialized.
    pub fn new() -> Gone
        ensures { result ≡ record { seconds = None } }
    {
        Gone { seconds: None }
    }
}

impl Servlet for Gone {
    ghost use Rattle.sv_deployments.specs.Leaving.{CallLeavesBoth};

    ghost servlet_step = { λ _ call _. CallLeavesBoth call };

    fn init(&mut self, _alloc: Global, config: &Config) -> Init {
        self.seconds = seconds(config.param("seconds").unwrap_or(""));
        Init::Ready
    }

    fn service(&mut self, _alloc: Global, _exchange: &mut Exchange, _turn: u32) -> Step {
        Step::Unavailable(self.seconds)
    }

    fn destroy(&mut self) {}
}

fn seconds(text: &str) -> Option<u32> {
    if text.is_empty() {
        None
    } else {
        Some(u32::try_from(number(text)).unwrap_or(0))
    }
}
