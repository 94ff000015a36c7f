//! Boxed components. A box takes the steps of its content.

use crate::answers::{Gate, Init, Step};
use crate::components::{Filter, Listener, Servlet};
use crate::config::Config;
use std::alloc::Global;
use sv_exchange::Exchange;
use sv_session::Event;
use sv_text::NoMemory;

impl Servlet for Box<dyn Servlet> {
    ghost use Rattle.sv_component.specs.Boxed.{StepsInside};

    ghost servlet_step = { λ before call after. StepsInside before (Servlet-box before).servlet_step call after };

    fn init(&mut self, alloc: Global, config: &Config) -> Init {
        (**self).init(alloc, config)
    }

    fn service(&mut self, alloc: Global, exchange: &mut Exchange, turn: u32) -> Step {
        (**self).service(alloc, exchange, turn)
    }

    fn destroy(&mut self) {
        (**self).destroy();
    }
}

impl Filter for Box<dyn Filter> {
    ghost use Rattle.sv_component.specs.Boxed.{StepsInside};

    ghost filter_step = { λ before call after. StepsInside before (Filter-box before).filter_step call after };

    fn init(&mut self, alloc: Global, config: &Config) -> Init {
        (**self).init(alloc, config)
    }

    fn before(&mut self, alloc: Global, exchange: &mut Exchange) -> Gate {
        (**self).before(alloc, exchange)
    }

    fn after(&mut self, alloc: Global, exchange: &mut Exchange) -> Result<(), NoMemory> {
        (**self).after(alloc, exchange)
    }

    fn destroy(&mut self) {
        (**self).destroy();
    }
}

impl Listener for Box<dyn Listener> {
    ghost use Rattle.sv_component.specs.Boxed.{StepsInside};

    ghost listener_step = { λ before call after. StepsInside before (Listener-box before).listener_step call after };

    fn hear(&mut self, event: &Event) {
        (**self).hear(event);
    }
}
