//! The laws of a container. Each is the contract of a function that does nothing.

ghost use Rattle.sv_component.specs.Steps.{steps_of};
ghost use Rattle.std.specs.Prelude.{◌≡◌};
ghost use Rattle.sv_container.specs.Explaining.{ExplainsWhatWasDeployed};
ghost use Rattle.sv_container.specs.Stopping.{StoppedContainersStopQuietly};

use crate::container::MAX_CONTEXTS;
use sv_component::{Filter, Listener, Servlet};
use sv_run::Words;

/// States the limit as a number. Definitions and code cite only the constant, so a change to it would change both.
pub fn limits_are_as_stated()
    ensures { MAX_CONTEXTS ≡ 64 }
{}

/// After an event has run out of memory, the shutdown of a container proceeds context by context. It destroys each
/// component that was initialized and is not gone, in the reverse order of the inits. Then it notifies the listeners,
/// in reverse order, that the context stops. It notifies nothing about sessions.
pub fn stopped_containers_stop_quietly<S: Servlet, F: Filter, L: Listener, W: Words>()
    ensures { StoppedContainersStopQuietly (steps_of S.servlet_step F.filter_step L.listener_step) W }
{}

/// Started contexts explain a request by their deployments: their paths, descriptors and users.
pub fn containers_explain_what_was_deployed<S: Servlet, F: Filter, L: Listener>()
    ensures { ExplainsWhatWasDeployed (steps_of S.servlet_step F.filter_step L.listener_step) }
{}
