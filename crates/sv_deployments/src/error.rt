//! A servlet that responds with an error.

ghost use Rattle.std.specs.Prelude.{◌≡◌};

use crate::parameter::number;
use std::alloc::Global;
use sv_component::{Config, Exchange, Init, Servlet, Step};
use sv_text::Text;

/// Responds with an error, whose status code is the parameter `code`. Descriptors name this class `Err`.
#[derive(Drop)]
pub struct ErrorCode {
    code: u16,
}

impl ErrorCode {
    /// Creates a servlet that is not yet initialized.
    pub fn new() -> ErrorCode
        ensures { result ≡ record { code = 0 } }
    {
        ErrorCode { code: 0 }
    }
}

impl Servlet for ErrorCode {
    ghost use Rattle.sv_deployments.specs.Leaving.{CallLeavesBoth};

    ghost servlet_step = { λ _ call _. CallLeavesBoth call };

    fn init(&mut self, _alloc: Global, config: &Config) -> Init {
        let code = number(config.param("code").unwrap_or(""));
        self.code = u16::try_from(code).unwrap_or(0);
        Init::Ready
    }

    fn service(&mut self, alloc: Global, _exchange: &mut Exchange, _turn: u32) -> Step {
        match Text::copy_of(alloc, "error") {
            Ok(text) => Step::Error(self.code, text),
            Err(_) => Step::NoMemory,
        }
    }

    fn destroy(&mut self) {}
}
