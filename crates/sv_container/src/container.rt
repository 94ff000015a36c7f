//! A container.

ghost use Rattle.std.specs.Prelude.{length, map};
ghost use Rattle.sv_container.specs.Paths.{ArePermitted};
ghost use Rattle.sv_context.specs.Room.{HasRoomToStop};
ghost use Rattle.sv_run.specs.Host.{state_of};

use std::alloc::Global;
use sv_context::{Context, StopRoom};
use sv_run::Host;

/// Started contexts and their connections, with a source of random words. The context paths differ. The owner must shut
/// the container down.
pub struct Container<S, F, L, W> {
    pub(crate) alloc: Global,
    pub(crate) host: Host<Context<S, F, L>, W>,
    // Memory reserved for the results of the shutdown, so that the shutdown need not allocate it.
    pub(crate) stop: StopRoom<S, F, L>,
    ghost permitted: { ArePermitted (map (λ context. context.content.context_path) (state_of host).world.contexts) },
    ghost room_to_stop: { HasRoomToStop (length (state_of host).world.contexts) stop },
}

/// The maximum number of contexts of a container. A container with more deployments does not start.
pub const MAX_CONTEXTS: usize = 64;
