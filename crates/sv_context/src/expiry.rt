//! Expiring the sessions of a context.

ghost use Rattle.sv_component.specs.Steps.{steps_of};
ghost use Rattle.sv_policy.specs.Compiled.{Standing};
ghost use Rattle.sv_realm.specs.declared.account.User.{User};
ghost use Rattle.sv_tree.specs.SiteOfDescriptor.{Content};
ghost use Rattle.std.specs.Prelude.{List};
ghost use Rattle.sv_context.specs.Expiry.{Expires};
ghost use Rattle.sv_context.specs.State.{AreComponentsOf, context_of};

use crate::context::Context;
use std::alloc::Global;
use sv_component::{Filter, Listener, Servlet};
use sv_journal::Journal;
use sv_live::Live;
use sv_session::Sessions;

impl<S: Servlet, F: Filter, L: Listener> Context<S, F, L> {
    /// Ends the sessions that have expired at a time, in seconds since 1970, ordered by deadline and then number. The
    /// listeners are notified of each end (Jakarta Servlet 6.0, sections 7.5 and 11.3.4). If the journal breaks, the
    /// expiry continues.
    pub fn expire(&mut self, alloc: Global, moment: u64, journal: &mut Journal)
        ensures { Expires (steps_of S.servlet_step F.filter_step L.listener_step) moment self.old journal.old self.new journal.new }
    {
        end_expired(
            alloc,
            moment,
            &mut self.responder.live,
            &mut self.sessions,
            journal,
        );
    }
}

// Ends the sessions that have expired, and notifies the listeners of each end.
fn end_expired<S: Servlet, F: Filter, L: Listener>(
    alloc: Global,
    moment: u64,
    live: &mut Live<S, F, L>,
    sessions: &mut Sessions,
    journal: &mut Journal,
)
    ensures expires { (content : Content) (policy : Standing) (users : List User) → AreComponentsOf content live.old
        → Expires (steps_of S.servlet_step F.filter_step L.listener_step) moment
        (context_of content policy users live.old sessions.old.store) journal.old (context_of content policy users live.new sessions.new.store) journal.new }
    ensures components { (content : Content) → AreComponentsOf content live.old → AreComponentsOf content live.new }
{
    while let Some(session) = sessions.expire(moment) {
        live.tell_end(alloc, session, journal);
    }
}
