//! Resuming contexts with the sessions and constraints of suspended ones.

ghost use Rattle.std.specs.Prelude.{◌≡◌};
ghost use Rattle.sv_component.specs.Steps.{steps_of};
ghost use Rattle.sv_context.specs.Resuming.{Resumes, ResumesAll, ResumesWith, StrangersEnd, caller_now};

use crate::context::Context;
use crate::deployment::session_limits;
use crate::resumption::Resumption;
use std::alloc::Global;
use std::collections::VecDeque;
use sv_component::{Filter, Listener, Servlet};
use sv_journal::Journal;
use sv_live::Live;
use sv_realm::Realm;
use sv_session::Sessions;

impl<S: Servlet, F: Filter, L: Listener> Context<S, F, L> {
    /// Resumes a started context with the sessions and the constraints of a suspended one. Each session goes on if it has
    /// no caller, or if its caller is still a user of the same name, salt and digest. The others end in the order of
    /// their numbers, and the listeners are notified of each (Jakarta Servlet 6.0, sections 7.5 and 11.3.4). Serials go
    /// on; the limit and the timeout of sessions are those of the descriptor. If the journal breaks, this continues.
    pub fn resume(&mut self, alloc: Global, resumption: Resumption, journal: &mut Journal)
        ensures { ResumesWith (steps_of S.servlet_step F.filter_step L.listener_step) resumption self.old journal.old self.new journal.new }
    {
        let Resumption {
            users,
            policy,
            mut sessions,
        } = resumption;
        let (limit, interval) = session_limits(self.responder.site.descriptor());
        sessions.set_limits(limit, interval);
        end_strangers(
            alloc,
            &self.users,
            &users,
            &mut self.responder.live,
            &mut sessions,
            journal,
        );
        self.policy = policy;
        self.sessions = sessions;
    }
}

// Gives the callers of sessions the numbers that they have now. The sessions whose callers are no users any more end, in
// the order of their numbers, and the listeners are notified of each end.
fn end_strangers<S: Servlet, F: Filter, L: Listener>(
    alloc: Global,
    users: &Realm,
    earlier: &Realm,
    live: &mut Live<S, F, L>,
    sessions: &mut Sessions,
    journal: &mut Journal,
)
    ensures { StrangersEnd (steps_of S.servlet_step F.filter_step L.listener_step) users.now earlier.now
        live.old sessions.old.store journal.old live.new sessions.new.store journal.new }
{
    // The sessions are in the order of their numbers.
    let _serial = sessions.serial();
    let mut number = 0;
    while let Some(session) = sessions.after(number) {
        number = session.number;
        match caller_now(users, earlier, session.caller) {
            Some(caller) => {
                let _found = sessions.enter_caller(number, caller);
            }
            None => {
                if let Some(ended) = sessions.end(number) {
                    live.tell_end(alloc, ended, journal);
                }
            }
        }
    }
}

// Returns the caller that a session has now, if it goes on: the user who still is the earlier one, or none if it has none.
fn caller_now(users: &Realm, earlier: &Realm, caller: Option<u32>) -> Option<Option<u32>>
    ensures { result ≡ caller_now users.now earlier.now caller }
{
    match caller {
        None => Some(None),
        Some(number) => match users.successor(earlier, number) {
            None => None,
            Some(own) => Some(Some(own)),
        },
    }
}

/// Resumes the contexts that have something to resume with, in their order, after [`take_all`](crate::take_all) of their
/// deployments. If the journal breaks, this continues.
pub fn resume_all<S: Servlet, F: Filter, L: Listener>(
    alloc: Global,
    contexts: &mut [Context<S, F, L>],
    resumptions: Vec<Option<Resumption>>,
    journal: &mut Journal,
)
    ensures { ResumesAll (steps_of S.servlet_step F.filter_step L.listener_step) resumptions.items contexts.old journal.old contexts.new journal.new }
{
    let mut waiting = VecDeque::from_vec(resumptions);
    for place in 0..contexts.len() {
        let Some(resumption) = waiting.pop_front() else {
            return;
        };
        resume_if(alloc, &mut contexts[place], resumption, journal);
    }
}

// Resumes a context if it has something to resume with.
fn resume_if<S: Servlet, F: Filter, L: Listener>(
    alloc: Global,
    context: &mut Context<S, F, L>,
    resumption: Option<Resumption>,
    journal: &mut Journal,
)
    ensures { Resumes (steps_of S.servlet_step F.filter_step L.listener_step) resumption context.old journal.old context.new journal.new }
{
    if let Some(resumption) = resumption {
        context.resume(alloc, resumption, journal);
    }
}
