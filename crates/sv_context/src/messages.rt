//! Handling a message in a context.

ghost use Rattle.sv_component.specs.Steps.{steps_of};
ghost use Rattle.std.specs.Prelude.{◌≡◌, IfOk, IsTrue, unwrap_or};
ghost use Rattle.http.specs.StatusCode.{IsStatusCode};
ghost use Rattle.sv_exchange.specs.Asked.{asked_by};
ghost use Rattle.sv_mapping.specs.Within.{path_within};
ghost use Rattle.sv_dispatch.specs.Did.{seen};
ghost use Rattle.sv_mapping.specs.Pattern.{is_at_or_below};
ghost use Rattle.sv_text.specs.Gives.{GivesAnswer};
ghost use Rattle.sv_context.specs.Handled.{HandlesMessage, within};

use crate::context::Context;
use std::alloc::Global;
use sv_admission::admit;
use sv_component::{Filter, Listener, Servlet};
use sv_exchange::Request;
use sv_journal::Journal;
use sv_mapping::path_within;
use sv_message::{Message, Response};
use sv_text::{NoMemory, Text};
use sv_uri::path::Canon;

impl<S: Servlet, F: Filter, L: Listener> Context<S, F, L> {
    /// Handles a message with this canonical path, which the context must serve. The time is in seconds since 1970, and
    /// the words are the two random words of the message. The message is admitted, logged, and answered: by the servlet
    /// or the file of its path, by a page, in plain text, or by a redirect (Jakarta Servlet 6.0, sections 3.5, 10.9,
    /// 11.3 and 13.6.3). The caller ends expired sessions first. The message is unspecified afterwards, since its parts
    /// may be moved out.
    ///
    /// # Errors
    /// `NoMemory` if an allocation fails, a component runs out of memory, or the journal is broken. Calls that were
    /// made are not undone. The deployment is still complete, and the context can be undeployed, but its sessions are
    /// unspecified.
    pub fn handle(
        &mut self,
        alloc: Global,
        message: &mut Message,
        canon: &Canon,
        moment: u64,
        words: (u64, u64),
        journal: &mut Journal,
    ) -> Result<Response, NoMemory>
        requires { IsTrue (is_at_or_below self.old.content.context_path canon.now.path) }
        ensures handles { HandlesMessage (steps_of S.servlet_step F.filter_step L.listener_step) (asked_by message.old (within self.old canon.now) moment words)
            self.old journal.old (seen result) self.new journal.new }
        ensures status { IfOk result (λ response. IsStatusCode response.status) }
    {
        if !journal.whole() {
            return Err(NoMemory);
        }
        let Ok(made) = within(alloc, self.responder.site.context_path(), canon) else {
            return Err(NoMemory);
        };
        let request = Request {
            message,
            canon: either(&made, canon),
            moment,
            words,
        };
        let Ok(admission) = admit(
            alloc,
            &self.responder.site,
            &self.policy,
            &self.users,
            &request,
            &mut self.sessions,
        ) else {
            return Err(NoMemory);
        };
        self.responder
            .answer(alloc, request, admission, &mut self.sessions, journal)
    }
}

// Returns whether the path in the context is the whole path, as it is in the root context.
fn is_path_within(context_path: &str, canon: &Canon) -> bool
    ensures { IsTrue result → record canon.now { path = path_within context_path.now canon.now.path } ≡ canon.now }
{
    context_path.is_empty() && !canon.path.as_str().is_empty()
}

// Returns the path in the context, with the query, unless it is the whole path.
#[inline(always)]
fn within(alloc: Global, context_path: &str, canon: &Canon) -> Result<Option<Canon>, NoMemory>
    requires { IsTrue (is_at_or_below context_path.now canon.now.path) }
    ensures { IfOk result (λ made. unwrap_or made canon.now ≡ record canon.now { path = path_within context_path.now canon.now.path }) }
{
    if is_path_within(context_path, canon) {
        return Ok(None);
    }
    let path = Text::copy_of(alloc, path_within(context_path, canon.path.as_str()))?;
    let query = copied(alloc, &canon.query)?;
    Ok(Some(Canon { path, query }))
}

// Returns the first path if there is one, or the other.
#[inline(always)]
fn either<'a>(made: &'a Option<Canon>, other: &'a Canon) -> &'a Canon
    ensures { result.now ≡ unwrap_or made.now other.now }
{
    match made {
        Some(made) => made,
        None => other,
    }
}

fn copied(alloc: Global, text: &Option<Text>) -> Result<Option<Text>, NoMemory>
    ensures { GivesAnswer result text.now }
{
    match text {
        Some(text) => Ok(Some(Text::copy_of(alloc, text.as_str())?)),
        None => Ok(None),
    }
}
