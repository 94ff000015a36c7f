//! The places of components in a descriptor.

ghost use Rattle.sv_deployments.specs.ComponentPlace.{steps_to};
ghost use Rattle.sv_text.specs.Gives.{GivesAnswer};

use std::alloc::Global;
use sv_descriptor::ValueStep;
use sv_program::item_steps;
use sv_text::{Listed, NoMemory};

/// The place of a component among those of its kind in its descriptor, from 0.
#[derive(Clone, Copy, Debug)]
pub enum ComponentPlace {
    /// A servlet.
    Servlet(usize),
    /// A filter.
    Filter(usize),
    /// A listener.
    Listener(usize),
}

impl ComponentPlace {
    /// Returns the steps from the descriptor's table to the class of the component.
    pub fn steps(self, alloc: Global) -> Result<Listed<ValueStep>, NoMemory>
        ensures { GivesAnswer result (steps_to self) }
    {
        match self {
            ComponentPlace::Servlet(place) => item_steps(alloc, "servlet", place, "servlet-class"),
            ComponentPlace::Filter(place) => item_steps(alloc, "filter", place, "filter-class"),
            ComponentPlace::Listener(place) => {
                item_steps(alloc, "listener", place, "listener-class")
            }
        }
    }
}
