//! Declarations in a descriptor, and the components that they declare.

ghost use Rattle.std.specs.Prelude.{ℕ, Result, Err};
ghost use Rattle.sv_text.specs.Gives.{Gives};
ghost use Rattle.sv_deployments.specs.ClassFault.{class_fault};
ghost use Rattle.sv_deployments.specs.Parts.{each_from, filter_of, listener_of, servlet_of};
ghost use Rattle.sv_deployments.specs.declared.class_fault.ClassFault.TheVariants.{UnknownClass};

use crate::class_fault::ClassFault;
use crate::component_place::ComponentPlace;
use crate::program_filter::ProgramFilter;
use crate::program_listener::ProgramListener;
use crate::program_servlet::ProgramServlet;
use std::alloc::Global;
use sv_component::Named;
use sv_descriptor::{FilterEntry, ListenerEntry, ServletEntry};
use sv_text::{Listed, Text};

/// A declared servlet, filter or listener.
pub(crate) trait Declared {
    /// The component.
    type Component: Drop;

    ghost use Rattle.sv_deployments.specs.declared.class_fault.ClassFault.{ClassFault};

    // The component that is declared at this place among those of its kind, or the fault of its class.
    ghost stands_for: { ℕ → Self → Result Self.Component ClassFault };

    /// Creates the component, which is declared at this place among those of its kind.
    fn component(&self, alloc: Global, place: usize) -> Result<Self::Component, ClassFault>
        ensures { Gives class_fault result (stands_for place self.now) };
}

/// Creates the declared components, in order.
///
/// # Errors
/// The first unknown class, or [`ClassFault::NoMemory`].
pub(crate) fn components_of<D: Declared>(
    alloc: Global,
    declared: &[D],
) -> Result<Listed<D::Component>, ClassFault>
    ensures { Gives class_fault result (each_from D.stands_for 0 declared.now) }
{
    let mut components = Vec::with_capacity(alloc, declared.len())?;
    for entry in declared {
        components.push(entry.component(alloc, components.len())?)?;
    }
    Ok(Listed::from_vec(components))
}

impl Declared for ServletEntry {
    type Component = Named<ProgramServlet>;

    ghost stands_for = { servlet_of };

    fn component(&self, alloc: Global, place: usize) -> Result<Named<ProgramServlet>, ClassFault> {
        match ProgramServlet::of_class(alloc, self.servlet_class.as_str()) {
            Some(component) => Ok(Named {
                name: Text::copy_of(alloc, self.servlet_name.as_str())?,
                component,
            }),
            None => unknown(alloc, &self.servlet_class, ComponentPlace::Servlet(place)),
        }
    }
}

impl Declared for FilterEntry {
    type Component = Named<ProgramFilter>;

    ghost stands_for = { filter_of };

    fn component(&self, alloc: Global, place: usize) -> Result<Named<ProgramFilter>, ClassFault> {
        match ProgramFilter::of_class(alloc, self.filter_class.as_str()) {
            Some(component) => Ok(Named {
                name: Text::copy_of(alloc, self.filter_name.as_str())?,
                component,
            }),
            None => unknown(alloc, &self.filter_class, ComponentPlace::Filter(place)),
        }
    }
}

impl Declared for ListenerEntry {
    type Component = ProgramListener;

    ghost stands_for = { listener_of };

    fn component(&self, alloc: Global, place: usize) -> Result<ProgramListener, ClassFault> {
        match ProgramListener::of_class(self.listener_class.as_str()) {
            Some(component) => Ok(component),
            None => unknown(alloc, &self.listener_class, ComponentPlace::Listener(place)),
        }
    }
}

// Returns the fault of an unknown class.
fn unknown<T>(alloc: Global, class: &Text, place: ComponentPlace) -> Result<T, ClassFault>
    ensures { Gives class_fault result (Err (UnknownClass class.now place)) }
{
    let class = Text::copy_of(alloc, class.as_str())?;
    Err(ClassFault::UnknownClass(class, place))
}
