//! What holds over a chain of containers, each of which resumes with what the one before handed over. Each law is the
//! contract of a function that only calls other laws.

ghost use Rattle.sv_component.specs.Steps.{steps_of};
ghost use Rattle.sv_headline.specs.Chains.{CallersOfAChainHaveLoggedIn, EachLivesLawfully, NoIdOfAChainIsGivenTwice};

use crate::record::every_run_is_lawful;
use crate::restarts::{callers_go_on, contexts_go_on};
use crate::runs::{callers_stay_or_log_in, sessions_change_by_calls};
use sv_component::{Filter, Listener, Servlet};
use sv_run::Words;
use sv_session::each_id_has_the_next_serial;

/// A container is started, runs until it is suspended, and another one resumes, and so on. Each of them runs lawfully,
/// until an event runs out of memory.
pub fn each_container_of_a_chain_runs_lawfully<S: Servlet, F: Filter, L: Listener, W: Words>()
    ensures { EachLivesLawfully (steps_of S.servlet_step F.filter_step L.listener_step) W.draws }
{
    every_run_is_lawful::<S, F, L, W>();
}

/// Over a chain of any length, a session holds a caller only by a login with a name and a password that fitted, in the
/// latest container or in one before it. No later message has undone it, and at each restart the caller was still a user,
/// of the same name, salt and digest (Jakarta Servlet 6.0, sections 7.5, 13.6 and 13.6.3).
pub fn callers_of_a_chain_have_logged_in<S: Servlet, F: Filter, L: Listener, W: Words>()
    ensures { CallersOfAChainHaveLoggedIn (steps_of S.servlet_step F.filter_step L.listener_step) W.draws }
{
    callers_go_on::<S, F, L, W>();
    callers_stay_or_log_in::<S, F, L, W>();
}

/// Over a chain of any length, no id is given twice in a context and those that it goes on from (Jakarta Servlet 6.0,
/// section 7.1).
pub fn no_id_of_a_chain_is_given_twice<S: Servlet, F: Filter, L: Listener, W: Words>()
    ensures { NoIdOfAChainIsGivenTwice (steps_of S.servlet_step F.filter_step L.listener_step) W.draws }
{
    contexts_go_on::<S, F, L, W>();
    sessions_change_by_calls::<S, F, L, W>();
    each_id_has_the_next_serial();
}
