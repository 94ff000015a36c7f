//! What the server does with a request, and why.

use crate::listed_constraint::ListedConstraint;
use crate::page::{ForwardedPage, Page};
use crate::responder::Responder;
use sv_constraints::OwnedDecision;
use sv_text::{Listed, Text};
use sv_uri::fault::PathFault;
use sv_wire::WireFault;

/// What the server does with a request.
#[derive(Drop)]
pub enum Explanation {
    /// The request is refused before any context sees it, with the status of the fault: `HeadTooLarge` if no head with
    /// the method and the target ends within its limit, `BadHead` if a request line cannot hold the target, `BadTarget`
    /// if its form is not served (RFC 9112, sections 2.3, 3 and 3.2).
    Unread(WireFault),
    /// The target is `*` of OPTIONS: the server itself answers, with status 200 and no body.
    OfServer,
    /// The target has no canonical path. The status is 400.
    BadPath(PathFault),
    /// No context serves this canonical path. The status is 404.
    NoContext(Text),
    /// A context serves the path.
    InContext(ServedRequest),
}

/// What a context does with a request.
#[derive(Drop)]
pub struct ServedRequest {
    /// The canonical path of the target.
    pub canonical: Text,
    /// The context path, empty for the root context.
    pub context: Text,
    /// The name of the file of the context's descriptor.
    pub file: Text,
    /// The path within the context.
    pub path: Text,
    /// What becomes of the request.
    pub treatment: Treatment,
}

/// What becomes of a request in its context. The tests are made in the order of the variants.
#[derive(Drop)]
pub enum Treatment {
    /// The path is in a folder that is served to no client (Jakarta Servlet 6.0, section 10.5). The status is 404, with
    /// this error page.
    Hidden(Option<Page>),
    /// The request is a login post (section 13.6.3).
    LoginPost(LoginAnswers),
    /// The constraints decide (section 13.8).
    Judged(JudgedRequest),
}

/// The answers to a login post. Which of them is given depends on its body and the sessions.
#[derive(Drop)]
pub struct LoginAnswers {
    /// The location of the 303 if the name and the password fit, and no target was saved in the session.
    pub root: Text,
    /// The login error page, if they do not fit.
    pub failure_page: ForwardedPage,
    /// The page of the error 503, if they fit and no session is available.
    pub unavailable_page: Option<Page>,
}

/// A request that the constraints decide.
#[derive(Drop)]
pub struct JudgedRequest {
    /// The caller.
    pub caller: JudgedCaller,
    /// The constraints on the best pattern of the path, in order.
    pub constraints: Listed<ListedConstraint>,
    /// The decision, with the best pattern and the number of the constraint that decides.
    pub decision: OwnedDecision,
    /// The answer.
    pub answer: Answer,
}

/// The caller of a request that the constraints decide.
#[derive(Drop)]
pub enum JudgedCaller {
    /// There is none, and none is asked for.
    Nobody,
    /// The caller with this name.
    Named(Text),
    /// There is none, since the context does not have the user of this name.
    NoSuchUser(Text),
    /// There is none, since nobody can log in to the context, so neither can the caller with this name.
    NoLogin(Text),
}

/// The answer to a request that the constraints decide.
#[derive(Drop)]
pub enum Answer {
    /// The request enters.
    Enters {
        /// The names of the filters that are called first, in order (section 6.2.4).
        filters: Listed<Text>,
        /// What answers it, if the filters let it.
        responder: Responder,
    },
    /// The login page.
    LoginPage {
        /// The page.
        page: ForwardedPage,
        /// Whether the target is saved for after the login, if a session is available.
        is_saved: bool,
    },
    /// A login is needed, and the context has no login configuration. The status is 403, with this error page.
    NoLogin(Option<Page>),
    /// The status is 403, with this error page.
    Denied(Option<Page>),
}
