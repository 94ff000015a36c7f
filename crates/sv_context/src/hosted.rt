//! A context as a container uses it.

use crate::context::Context;
use std::alloc::Global;
use sv_component::{Filter, Listener, Servlet};
use sv_journal::Journal;
use sv_mapping::HasContextPath;
use sv_message::{Message, Response};
use sv_policy::{Edit, EditFault};
use sv_text::NoMemory;
use sv_uri::path::Canon;

impl<S, F, L> HasContextPath for Context<S, F, L> {
    ghost path_of = { λ context. context.content.context_path };

    fn context_path(&self) -> &str {
        self.responder.site.context_path()
    }
}

// `handle`, `caller` and `expire` forward to the public methods of the same names. The contracts of those are stronger than the
// trait's: they also cover a journal that breaks.
impl<S: Servlet, F: Filter, L: Listener> sv_run::Context for Context<S, F, L> {
    ghost use Rattle.sv_component.specs.Steps.{steps_of};
    ghost use Rattle.sv_context.specs.Conduct.{conduct as conduct_by};
    ghost use Rattle.sv_context.specs.Motion.{edits_alone_by, keeps_path_by, motion_by};

    ghost conduct = { conduct_by (steps_of S.servlet_step F.filter_step L.listener_step) };

    #[inline(always)]
    fn handle(
        &mut self,
        alloc: Global,
        message: &mut Message,
        canon: &Canon,
        moment: u64,
        words: (u64, u64),
        journal: &mut Journal,
    ) -> Result<Response, NoMemory> {
        self.handle(alloc, message, canon, moment, words, journal)
    }

    fn caller(&self, message: &Message) -> Option<u32> {
        self.caller(message)
    }

    #[inline(always)]
    fn recycle(&mut self, response: Response) {
        self.responder.exchange.recycle(response);
    }

    fn expire(&mut self, alloc: Global, moment: u64, journal: &mut Journal) {
        self.expire(alloc, moment, journal);
    }

    fn edit(&mut self, alloc: Global, edit: &Edit) -> Result<u64, EditFault> {
        self.policy.edit_copy(alloc, edit)
    }

    ghost is_motion = { motion_by (steps_of S.servlet_step F.filter_step L.listener_step) };

    ghost keeps_path = { keeps_path_by (steps_of S.servlet_step F.filter_step L.listener_step) };

    ghost edits_alone = { edits_alone_by (steps_of S.servlet_step F.filter_step L.listener_step) };
}
