//! The components of a context.

ghost use Rattle.std.specs.Prelude.{IfOk};
ghost use Rattle.sv_text.specs.Gives.{Gives};
ghost use Rattle.sv_lifecycle.specs.Fit.{Fits};
ghost use Rattle.sv_deployments.specs.ClassFault.{class_fault};
ghost use Rattle.sv_deployments.specs.Parts.{components, components_of, seen};

use crate::class_fault::ClassFault;
use crate::declaration::components_of;
use crate::program_filter::ProgramFilter;
use crate::program_listener::ProgramListener;
use crate::program_servlet::ProgramServlet;
use std::alloc::Global;
use sv_descriptor::Descriptor;
use sv_live::Parts;

/// Creates the components that the descriptor declares, in its order and with its names, each a new instance of its
/// class. They fit the descriptor: a start is never refused because its components differ from the declared ones
/// (Jakarta Servlet 6.0, section 14.4).
///
/// # Errors
/// [`ClassFault::UnknownClass`] with the first unknown class of the servlets, else of the filters, else of the
/// listeners; or [`ClassFault::NoMemory`].
pub fn parts_of(
    alloc: Global,
    descriptor: &Descriptor,
) -> Result<Parts<ProgramServlet, ProgramFilter, ProgramListener>, ClassFault>
    ensures components { Gives class_fault (seen components result) (components_of descriptor.now) }
    ensures fits { IfOk result (λ parts. Fits descriptor.now parts) }
{
    let app = descriptor.web_app();
    let servlets = components_of(alloc, app.servlets.as_slice())?;
    let filters = components_of(alloc, app.filters.as_slice())?;
    let listeners = components_of(alloc, app.listeners.as_slice())?;
    Ok(Parts {
        servlets: servlets.into_vec(),
        filters: filters.into_vec(),
        listeners: listeners.into_vec(),
    })
}
