//! Laws of component runs.

ghost use Rattle.sv_component.specs.Steps.{steps_of};
ghost use Rattle.sv_component.specs.Laws.{RunsAreJournalled, RunsAreWhole, RunsJoin, RunsMoveComponents};

use crate::components::{Filter, Listener, Servlet};

/// In a run, each component takes exactly the steps of its calls, in order. No component is added or removed.
pub fn runs_move_components<S: Servlet, F: Filter, L: Listener>()
    ensures { RunsMoveComponents (steps_of S.servlet_step F.filter_step L.listener_step) }
{}

/// The journal gains the entries of a run in order, or gains a prefix of them and breaks.
pub fn runs_are_journalled<S: Servlet, F: Filter, L: Listener>()
    ensures { RunsAreJournalled (steps_of S.servlet_step F.filter_step L.listener_step) }
{}

/// Two runs in sequence form one run.
pub fn runs_join<S: Servlet, F: Filter, L: Listener>()
    ensures { RunsJoin (steps_of S.servlet_step F.filter_step L.listener_step) }
{}

/// Calls appended to any run form a run exactly if they form one by themselves.
pub fn runs_are_whole<S: Servlet, F: Filter, L: Listener>()
    ensures { RunsAreWhole (steps_of S.servlet_step F.filter_step L.listener_step) }
{}
