//! The interfaces of servlets, filters and listeners.

use crate::answers::{Gate, Init, Step};
use crate::config::Config;
use std::alloc::Global;
use sv_exchange::Exchange;
use sv_session::Event;
use sv_text::{NoMemory, Text};

/// A servlet (Jakarta Servlet 6.0, chapter 2). If its author states no step, it may change itself in any way. It
/// modifies the exchange only through changing calls.
pub trait Servlet: Drop {
    ghost use Rattle.sv_component.specs.Call.{Call, Inited, Serviced, Destroyed};
    ghost use Rattle.sv_exchange.specs.Changing.{Reaches};

    /// The effect of a call on the servlet. By default a call may have any effect.
    ghost servlet_step: { Self → Call → Self → Type 0 } = { λ _ _ _. Unit {0} };

    /// Puts the servlet into service, before any request (Jakarta Servlet 6.0, section 2.3.2).
    fn init(&mut self, alloc: Global, config: &Config) -> Init
        ensures { servlet_step self.old (Inited config.now result) self.new };

    /// Answers a request (Jakarta Servlet 6.0, section 2.3.3). The turn starts at 0 and grows by one after each include
    /// that the servlet requests within one dispatch.
    fn service(&mut self, alloc: Global, exchange: &mut Exchange, turn: u32) -> Step
        ensures step { servlet_step self.old (Serviced exchange.old turn result exchange.new) self.new }
        ensures reached { Reaches exchange.old exchange.new };

    /// Takes the servlet out of service. No call follows.
    fn destroy(&mut self)
        ensures { servlet_step self.old Destroyed self.new };
}

/// A filter (Jakarta Servlet 6.0, chapter 6). If its author states no step, it may change itself in any way. It
/// modifies the exchange only through changing calls.
pub trait Filter: Drop {
    ghost use Rattle.std.specs.Prelude.{is_ok};
    ghost use Rattle.sv_component.specs.Call.{Call, Inited, Entered, Left, Destroyed};
    ghost use Rattle.sv_exchange.specs.Changing.{Reaches};

    /// The effect of a call on the filter. By default a call may have any effect.
    ghost filter_step: { Self → Call → Self → Type 0 } = { λ _ _ _. Unit {0} };

    /// Puts the filter into service, before any request (Jakarta Servlet 6.0, section 6.2.1).
    fn init(&mut self, alloc: Global, config: &Config) -> Init
        ensures { filter_step self.old (Inited config.now result) self.new };

    /// Runs before the rest of the chain.
    fn before(&mut self, alloc: Global, exchange: &mut Exchange) -> Gate
        ensures step { filter_step self.old (Entered exchange.old result exchange.new) self.new }
        ensures reached { Reaches exchange.old exchange.new };

    /// Runs after the rest of the chain, if `before` passed.
    fn after(&mut self, alloc: Global, exchange: &mut Exchange) -> Result<(), NoMemory>
        ensures step { filter_step self.old (Left exchange.old (is_ok result) exchange.new) self.new }
        ensures reached { Reaches exchange.old exchange.new };

    /// Takes the filter out of service. No call follows.
    fn destroy(&mut self)
        ensures { filter_step self.old Destroyed self.new };
}

/// A listener (Jakarta Servlet 6.0, chapter 11). It receives events, and changes only itself.
pub trait Listener: Drop {
    ghost use Rattle.sv_component.specs.Call.{Call, Heard};

    /// The effect of an event on the listener. By default an event may have any effect.
    ghost listener_step: { Self → Call → Self → Type 0 } = { λ _ _ _. Unit {0} };

    /// Receives an event. It cannot fail.
    fn hear(&mut self, event: &Event)
        ensures { listener_step self.old (Heard event.now) self.new };
}

/// A servlet or a filter, with the name that its descriptor gives it (Jakarta Servlet 6.0, section 2.3.2).
#[derive(Drop)]
pub struct Named<C> {
    pub name: Text,
    pub component: C,
}
