//! The laws of contexts, each the contract of a function that cites the laws of sessions.

ghost use Rattle.sv_component.specs.Steps.{steps_of};
ghost use Rattle.std.specs.Prelude.{◌≡◌};
ghost use Rattle.sv_context.specs.Laws.{ExpiryLeavesNone, ExpiryOfNoneIsNothing};

use crate::deployment::SECONDS_OF_MINUTE;
use sv_component::{Filter, Listener, Servlet};
use sv_session::expiry_ends_exactly_the_expired_sessions;

/// After the expiry of a context's sessions at a time, none has expired at that time.
pub fn an_expiry_leaves_none_expired<S: Servlet, F: Filter, L: Listener>()
    ensures { ExpiryLeavesNone (steps_of S.servlet_step F.filter_step L.listener_step) }
{
    expiry_ends_exactly_the_expired_sessions();
}

/// If no session of a context has expired at a time, its expiry is possible, changes nothing and calls no listener.
pub fn an_expiry_of_none_is_nothing<S: Servlet, F: Filter, L: Listener>()
    ensures { ExpiryOfNoneIsNothing (steps_of S.servlet_step F.filter_step L.listener_step) }
{
    expiry_ends_exactly_the_expired_sessions();
}

/// The values of this crate's constants, which both the definitions and the code use.
pub fn limits_are_as_stated()
    ensures { SECONDS_OF_MINUTE ≡ 60 }
{}
