//! Memory that is reserved before a start.

ghost use Rattle.std.specs.Prelude.{◌≡◌, IfOk};
ghost use Rattle.sv_context.specs.Room.{IsReady};
ghost use Rattle.sv_context.specs.Several.{paths_of};

use crate::context::Context;
use std::alloc::Global;
use sv_component::{Filter, Listener, Servlet};
use sv_lifecycle::{Deployment, SuspendedContext};
use sv_live::Parts;
use sv_text::{NoMemory, Text};

/// Memory that is reserved for the start of several contexts, and for their stop.
#[derive(Drop)]
pub struct Room<S, F, L> {
    // The context paths. A fault reports one of them.
    pub(crate) paths: Vec<Text>,
    pub(crate) contexts: Vec<Context<S, F, L>>,
    pub(crate) stop: StopRoom<S, F, L>,
}

/// Memory that is reserved for the stop of several contexts.
#[derive(Drop)]
pub struct StopRoom<S, F, L> {
    pub(crate) back: Vec<Deployment<S, F, L>>,
    pub(crate) parts: Vec<Parts<S, F, L>>,
    pub(crate) remains: Vec<SuspendedContext>,
}

impl<S: Servlet, F: Filter, L: Listener> Room<S, F, L> {
    /// Reserves memory for the contexts of the deployments.
    ///
    /// # Errors
    /// [`NoMemory`] if an allocation fails.
    pub fn for_all(
        alloc: Global,
        deployments: &[Deployment<S, F, L>],
    ) -> Result<Room<S, F, L>, NoMemory>
        ensures { IfOk result (λ room. IsReady deployments.now room) }
    {
        let count = deployments.len();
        Ok(Room {
            paths: copies_of_paths(alloc, deployments)?,
            contexts: Vec::with_capacity(alloc, count)?,
            stop: StopRoom {
                back: Vec::with_capacity(alloc, count)?,
                parts: Vec::with_capacity(alloc, count)?,
                remains: Vec::with_capacity(alloc, count)?,
            },
        })
    }

    /// Returns the context paths, in the order of the deployments.
    pub fn paths(&self) -> &[Text]
        ensures { result.now ≡ self.now.paths.items }
    {
        self.paths.as_slice()
    }

    /// Drops the room. Callers do not drop the contents themselves, and their proofs need not cover it.
    pub fn let_go(self) {}
}

// Copies the context paths of the deployments.
fn copies_of_paths<S, F, L>(
    alloc: Global,
    deployments: &[Deployment<S, F, L>],
) -> Result<Vec<Text>, NoMemory>
    ensures { IfOk result (λ paths. paths.items ≡ paths_of deployments.now) }
{
    let mut paths = Vec::with_capacity(alloc, deployments.len())?;
    for deployment in deployments {
        paths.push(Text::copy_of(alloc, deployment.path.as_str())?)?;
    }
    Ok(paths)
}
