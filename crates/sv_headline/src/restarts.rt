//! What is kept over a restart. Each law is the contract of a function that only calls other laws.

ghost use Rattle.sv_component.specs.Steps.{steps_of};
ghost use Rattle.sv_headline.specs.Restarts.{CallersGoOn, CallersOfAResumedContainerHaveLoggedIn, ContextsGoOn};

use crate::laws::callers_of_a_started_container_have_logged_in;
use sv_component::{Filter, Listener, Servlet};
use sv_run::Words;

/// Each context of a container that resumes goes on from a context of its path that was suspended, or is as one that is
/// started. If it goes on, its sessions are those whose callers are still users, its serials go on, and its constraints
/// are those with which its descriptor lets the earlier ones resume (Jakarta Servlet 6.0, sections 7.5 and 13.8).
pub fn contexts_go_on<S: Servlet, F: Filter, L: Listener, W>()
    ensures { ContextsGoOn (steps_of S.servlet_step F.filter_step L.listener_step) W }
{}

/// In a container that resumes, a session holds a caller only if the session of that number held it when a context of the
/// same path was suspended, and the user then is still one, of the same name, salt and digest (Jakarta Servlet 6.0,
/// sections 7.5 and 13.6).
pub fn callers_go_on<S: Servlet, F: Filter, L: Listener, W>()
    ensures { CallersGoOn (steps_of S.servlet_step F.filter_step L.listener_step) W }
{
    contexts_go_on::<S, F, L, W>();
}

/// A container is started, runs until it is suspended, and another one resumes. Before its first event, a session of the
/// second holds a caller only by a login in the run of the first, with a name and a password that fitted, which nothing
/// has undone; and that user is still one (Jakarta Servlet 6.0, sections 7.5, 13.6 and 13.6.3).
pub fn callers_of_a_resumed_container_have_logged_in<S: Servlet, F: Filter, L: Listener, W: Words>()
    ensures { CallersOfAResumedContainerHaveLoggedIn (steps_of S.servlet_step F.filter_step L.listener_step) W.draws }
{
    callers_go_on::<S, F, L, W>();
    callers_of_a_started_container_have_logged_in::<S, F, L, W>();
}
