//! Comparing components with a descriptor.

ghost use Rattle.std.specs.Prelude.{◌≡◌, map, MatchBool};
ghost use Rattle.sv_lifecycle.specs.Fit.{Fits};

use sv_component::Named;
use sv_descriptor::{Named as Declared, WebApp};
use sv_live::Parts;

/// Returns whether the servlets and filters have the names in the descriptor, in its order, and the number of listeners
/// is the declared one. If not, [`start`](crate::context_start) refuses the components before it calls any.
pub fn fits<S, F, L>(app: &WebApp, parts: &Parts<S, F, L>) -> bool
    ensures { MatchBool result (Fits app.now parts.now) (Fits app.now parts.now → ⊥) }
{
    names_fit(app.servlets.as_slice(), parts.servlets.as_slice())
        && names_fit(app.filters.as_slice(), parts.filters.as_slice())
        && parts.listeners.len() == app.listeners.as_slice().len()
}

fn names_fit<D: Declared, C>(declared: &[D], named: &[Named<C>]) -> bool
    ensures { MatchBool result
        (map (λ n. n.name) named.now ≡ map D.its_name declared.now)
        (map (λ n. n.name) named.now ≡ map D.its_name declared.now → ⊥) }
{
    if declared.len() != named.len() {
        return false;
    }
    for place in 0..declared.len() {
        if declared[place].name() != named[place].name.as_str() {
            return false;
        }
    }
    true
}
