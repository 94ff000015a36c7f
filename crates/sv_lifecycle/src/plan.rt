//! The plan of a start.

ghost use Rattle.std.specs.Prelude.{◌≡◌, IfOk, replicate};
ghost use Rattle.sv_lifecycle.specs.Plan.{IsPlan};
ghost use Rattle.sv_component.specs.declared.standing.Standing.TheVariants as standings;

use crate::configs::configs;
use crate::order::{in_init_order, load_order};
use std::alloc::Global;
use sv_component::{Config, Standing};
use sv_descriptor::WebApp;
use sv_live::Place;
use sv_text::{NoMemory, Text};

/// The data of a start, allocated before its first call.
#[derive(Drop)]
pub(crate) struct Plan {
    /// The context path.
    pub context: Text,
    /// The components in the order of their `init`.
    pub order: Vec<Place>,
    /// The configuration of each component.
    pub configs: Vec<Config>,
    /// The availability of each servlet.
    pub standings: Vec<Standing>,
}

impl Plan {
    /// Creates a plan for the components of a descriptor.
    pub fn of(alloc: Global, context: &str, app: &WebApp) -> Result<Plan, NoMemory>
        ensures { IfOk result (IsPlan context.now app.now) }
    {
        let context = Text::copy_of(alloc, context)?;
        let servlets = app.servlets.as_slice();
        let loaded = load_order(alloc, servlets)?;
        let order = in_init_order(alloc, app, loaded.as_slice())?;
        let configs = configs(alloc, app, order.as_slice())?;
        let standings = all_serving(alloc, servlets.len())?;
        Ok(Plan {
            context,
            order,
            configs,
            standings,
        })
    }
}

fn all_serving(alloc: Global, count: usize) -> Result<Vec<Standing>, NoMemory>
    ensures { IfOk result (λ all. all.items ≡ replicate count standings.Serving) }
{
    let mut all = Vec::with_capacity(alloc, count)?;
    for _ in 0..count {
        all.push(Standing::Serving)?;
    }
    Ok(all)
}
