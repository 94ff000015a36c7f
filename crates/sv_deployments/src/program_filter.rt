//! The program's filters as one type.

ghost use Rattle.std.specs.Prelude.{◌≡◌};
ghost use Rattle.sv_deployments.specs.FilterClasses.{new_filter};

use crate::bad::Bad;
use crate::halt::Halt;
use crate::mark::Mark;
use std::alloc::Global;
use sv_component::{Config, Exchange, Filter, Gate, Init};
use sv_text::NoMemory;

/// A filter of one of the program's classes.
#[derive(Drop)]
pub enum ProgramFilter {
    /// Adds its name to the response: the class `Mark`.
    Mark(Mark),
    /// Responds instead of the rest of the chain: the class `Halt`.
    Halt(Halt),
    /// Does not start: the class `Bad`.
    Bad(Bad),
}

impl ProgramFilter {
    /// Creates a filter of the class of this name, which is not yet initialized. Returns none if no filter class has
    /// this name.
    pub fn of_class(alloc: Global, class: &str) -> Option<ProgramFilter>
        ensures { result ≡ new_filter class.now }
    {
        Some(match class {
            "Mark" => ProgramFilter::Mark(Mark::new(alloc)),
            "Halt" => ProgramFilter::Halt(Halt::new()),
            "Bad" => ProgramFilter::Bad(Bad::new()),
            _ => return None,
        })
    }
}

impl Filter for ProgramFilter {
    ghost use Rattle.sv_deployments.specs.FilterClasses.{FilterSteps};

    ghost filter_step = { FilterSteps };

    fn init(&mut self, alloc: Global, config: &Config) -> Init {
        match self {
            ProgramFilter::Mark(filter) => filter.init(alloc, config),
            ProgramFilter::Halt(filter) => filter.init(alloc, config),
            ProgramFilter::Bad(filter) => filter.init(alloc, config),
        }
    }

    fn before(&mut self, alloc: Global, exchange: &mut Exchange) -> Gate {
        match self {
            ProgramFilter::Mark(filter) => filter.before(alloc, exchange),
            ProgramFilter::Halt(filter) => filter.before(alloc, exchange),
            ProgramFilter::Bad(filter) => filter.before(alloc, exchange),
        }
    }

    fn after(&mut self, alloc: Global, exchange: &mut Exchange) -> Result<(), NoMemory> {
        match self {
            ProgramFilter::Mark(filter) => filter.after(alloc, exchange),
            ProgramFilter::Halt(filter) => filter.after(alloc, exchange),
            ProgramFilter::Bad(filter) => filter.after(alloc, exchange),
        }
    }

    fn destroy(&mut self) {
        match self {
            ProgramFilter::Mark(filter) => filter.destroy(),
            ProgramFilter::Halt(filter) => filter.destroy(),
            ProgramFilter::Bad(filter) => filter.destroy(),
        }
    }
}
