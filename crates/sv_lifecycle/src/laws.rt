//! Laws of starts and stops. Each law is the contract of an empty function.

ghost use Rattle.sv_lifecycle.specs.Laws.{StopsMirrorStarts, UndoneStartsMirror};

use sv_component::{Filter, Listener, Servlet};

/// A stop directly after a start, without sessions, destroys exactly the components whose `init` returned that they are
/// ready, last first. Then it notifies the listeners in reverse order of the start.
pub fn stops_mirror_starts<S: Servlet, F: Filter, L: Listener>()
    ensures { StopsMirrorStarts S F L }
{}

/// A start that is undone ends with the mirror of its calls in the same way.
pub fn undone_starts_mirror()
    ensures { UndoneStartsMirror }
{}
