//! Header fields that restrict the site's pages in browsers.

ghost use Rattle.std.specs.Prelude.{◌≡◌, OnOk};
ghost use Rattle.sv_exchange.specs.Changing.{Reaches, after_all};
ghost use Rattle.guestbook_components.specs.Shielding.{security_fields};

use std::alloc::Global;
use sv_web::{Config, Exchange, ExchangeFault, Fault, Filter, Gate, Init, NoMemory, gate_of};

/// Allows only this site's own style sheet and forms, and no frames.
const POLICY: &str =
    "default-src 'none'; style-src 'self'; form-action 'self'; base-uri 'none'; frame-ancestors 'none'";

/// Sets the header fields on every response.
#[derive(Drop)]
pub struct Shield {}

impl Filter for Shield {
    ghost use Rattle.guestbook_components.specs.Shielding.{Shields};

    ghost filter_step = { λ _ call _. Shields call };

    fn init(&mut self, _alloc: Global, _config: &Config) -> Init {
        Init::Ready
    }

    fn before(&mut self, alloc: Global, exchange: &mut Exchange) -> Gate {
        match set_security_fields(exchange) {
            Ok(()) => Gate::Pass,
            Err(fault) => gate_of(alloc, Err(Fault::from(fault))),
        }
    }

    fn after(&mut self, _alloc: Global, _exchange: &mut Exchange) -> Result<(), NoMemory> {
        Ok(())
    }

    fn destroy(&mut self) {}
}

fn set_security_fields(exchange: &mut Exchange) -> Result<(), ExchangeFault>
    ensures set { OnOk result (exchange.new ≡ after_all security_fields exchange.old) }
    ensures reached { Reaches exchange.old exchange.new }
{
    exchange.set_header("content-security-policy", POLICY)?;
    exchange.set_header("x-content-type-options", "nosniff")?;
    exchange.set_header("referrer-policy", "same-origin")?;
    exchange.set_header("cache-control", "no-store")?;
    Ok(())
}
