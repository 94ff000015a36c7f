//! A deployed context.

ghost use Rattle.std.specs.Prelude.{length, ◌≡◌};
ghost use Rattle.sv_context.specs.Conduct.{caller_in};
ghost use Rattle.sv_context.specs.Forgetting.{without_sessions};

use crate::deployment::no_sessions;
use crate::responder::Responder;
use std::alloc::Global;
use std::marker::Model;
use sv_component::{Filter, Listener, Servlet};
use sv_constraints::Constraint;
use sv_lifecycle::Deployment;
use sv_login::held;
use sv_message::Message;
use sv_policy::{HasPolicy, Policy};
use sv_realm::Realm;
use sv_session::Sessions;

/// A deployed context: a started web application with its sessions (Jakarta Servlet 6.0, chapters 2, 3 and 7).
/// Contracts see a `ContextState`, which leaves out the exchange.
#[derive(Drop)]
pub struct Context<S, F, L> {
    pub(crate) responder: Responder<S, F, L>,
    pub(crate) users: Realm,
    // The current constraints, at first copies of the descriptor's.
    pub(crate) policy: Policy,
    pub(crate) sessions: Sessions,
}

impl<S, F, L> Model for Context<S, F, L> {
    ghost use Rattle.sv_context.specs.State.{AreComponentsOf, ContextState, context_of};

    ghost Value = { ContextState S F L };

    ghost view = { λ context. context_of context.responder.site context.policy context.users context.responder.live context.sessions.store };

    ghost invariant = { λ context. AreComponentsOf context.responder.site context.responder.live };
}

impl<S, F, L> Context<S, F, L> {
    /// Returns the number of live sessions.
    pub fn session_count(&self) -> usize
        ensures { result ≡ length self.now.store.sessions }
    {
        self.sessions.count()
    }

    /// Returns the sessions.
    pub fn sessions(&self) -> &Sessions
        ensures { result.now.store ≡ self.now.store }
    {
        &self.sessions
    }

    /// Returns the constraints that the descriptor declares. [`policy`](HasPolicy::policy) has those of now.
    pub fn declared(&self) -> &[Constraint]
        ensures { result.now ≡ self.now.content.app.constraints }
    {
        self.responder
            .site
            .descriptor()
            .web_app()
            .constraints
            .as_slice()
    }

    /// Returns the number of the user who is logged in to the session that a message's cookies name, if any (Jakarta
    /// Servlet 6.0, sections 7.1.1 and 13.3).
    pub fn caller(&self, message: &Message) -> Option<u32>
        ensures { result ≡ caller_in self.now message.now }
    {
        let app = self.responder.site.descriptor().web_app();
        let name = app.session.cookie.name.as_str();
        let number = held(message.fields.as_slice(), name, &self.sessions)?;
        self.sessions.caller(number)
    }
}

/// Drops deployments, with their components as they are. Callers do not drop the contents themselves, and their proofs
/// need not cover it.
pub fn let_go<S: Servlet, F: Filter, L: Listener>(deployments: Vec<Deployment<S, F, L>>) {
    drop(deployments);
}

impl<S, F, L> Context<S, F, L> {
    /// Drops all sessions, without notifying listeners and without allocating.
    pub fn forget_sessions(&mut self, alloc: Global)
        ensures { self.new ≡ without_sessions self.old }
    {
        self.sessions = no_sessions(alloc, self.responder.site.descriptor());
    }
}

impl<S, F, L> HasPolicy for Context<S, F, L> {
    ghost standing_of = { λ context. context.policy };

    ghost users_of = { λ context. context.users };

    fn policy(&self) -> &Policy {
        &self.policy
    }

    fn users(&self) -> &Realm {
        &self.users
    }
}
