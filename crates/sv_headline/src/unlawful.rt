//! What is not lawful. Each law takes a lawful message or event, and says that it is lawful no more if one thing in it is
//! altered. Each is the contract of a function that only calls other laws.

ghost use Rattle.sv_component.specs.Steps.{steps_of};
ghost use Rattle.sv_headline.specs.AnswersInOrder.{ItemsAreAnsweredInOrder};
ghost use Rattle.sv_headline.specs.DecidedOnce.{AccessIsDecidedOnce};
ghost use Rattle.sv_headline.specs.Unlawful.{EntriesCallTheirServlet, EntriesPassTheirFirstFilter, EventsNotifyOfExpiriesFirst, LoginsAreOfTheirSession, MessagesAreAnswered, MessagesAreHandledByTheirContext, OutcomesAreOfTheirContext, ResponsesAreOfTheirRequest, NotificationsAreInOrder, TicksNotifyOnlyOfExpiries};

use sv_component::{Filter, Listener, Servlet};
use sv_login::just_one_case_holds;
use sv_run::{Words, feedings_may_be_cut};
use sv_wire::readings_are_unique;

/// Nothing within a dispatch decides access again. If a message enters a context, and would enter it under other
/// constraints, then all that was done for it is lawful under those constraints, too (Jakarta Servlet 6.0, sections 9.1
/// and 13.8).
pub fn access_is_decided_once<S: Servlet, F: Filter, L: Listener>()
    ensures { AccessIsDecidedOnce (steps_of S.servlet_step F.filter_step L.listener_step) }
{}

/// A request that enters and goes to a servlet in service, without filters, calls this servlet with the exchange of the
/// request. It is not lawful to call nothing, or to call the servlet with another exchange (Jakarta Servlet 6.0, sections
/// 2.3.3 and 12.1).
pub fn entries_call_their_servlet<S: Servlet, F: Filter, L: Listener>()
    ensures { EntriesCallTheirServlet (steps_of S.servlet_step F.filter_step L.listener_step) }
{}

/// A request that enters and goes to a filter calls this filter first, with the exchange of the request. It is not lawful to
/// call nothing, or to make any other call first (Jakarta Servlet 6.0, section 6.2).
pub fn entries_pass_their_first_filter<S: Servlet, F: Filter, L: Listener>()
    ensures { EntriesPassTheirFirstFilter (steps_of S.servlet_step F.filter_step L.listener_step) }
{}

/// Listeners are notified of what a message and its calls did, each time in its place. It is not lawful to notify them of anything
/// else, to notify them of less, or to do so elsewhere (Jakarta Servlet 6.0, section 11.3.3).
pub fn notifications_are_in_order<S: Servlet, F: Filter, L: Listener>()
    ensures { NotificationsAreInOrder (steps_of S.servlet_step F.filter_step L.listener_step) }
{
    just_one_case_holds();
}

/// The outcome of a message is noted for its own context. It is not lawful to note it for another one, or to note another
/// outcome.
pub fn outcomes_are_of_their_context<S: Servlet, F: Filter, L: Listener>()
    ensures { OutcomesAreOfTheirContext (steps_of S.servlet_step F.filter_step L.listener_step) }
{
    just_one_case_holds();
}

/// A login changes its own session alone. It is not lawful to leave any other sessions, such as those with the caller in
/// another session (Jakarta Servlet 6.0, section 13.6.3).
pub fn logins_are_of_their_session<S: Servlet, F: Filter, L: Listener>()
    ensures { LoginsAreOfTheirSession (steps_of S.servlet_step F.filter_step L.listener_step) }
{
    just_one_case_holds();
}

/// A message is handled by the context that is at its place at that moment. It is not lawful to handle it by the
/// constraints, the users or the sessions of any other context.
pub fn messages_are_handled_by_their_context<S: Servlet, F: Filter, L: Listener>()
    ensures { MessagesAreHandledByTheirContext (steps_of S.servlet_step F.filter_step L.listener_step) }
{}

/// A tick of the clock notes the ends of the expired sessions, and nothing else. It is not lawful to let a session expire
/// in silence, or to note what no listener was notified of (Jakarta Servlet 6.0, sections 7.5 and 11.3.4).
pub fn ticks_notify_only_of_expiries<S: Servlet, F: Filter, L: Listener, W: Words>()
    ensures { TicksNotifyOnlyOfExpiries (steps_of S.servlet_step F.filter_step L.listener_step) W.draws }
{}

/// The journal of every event begins with the ends of the sessions that have expired at its time. It is not lawful to let them
/// expire in silence, or to note anything before them (Jakarta Servlet 6.0, sections 7.5 and 11.3.4).
pub fn events_notify_of_expiries_first<S: Servlet, F: Filter, L: Listener, W: Words>()
    ensures { EventsNotifyOfExpiriesFirst (steps_of S.servlet_step F.filter_step L.listener_step) W.draws }
{}

/// A piece that completes a message brings the deed of that message. It is not lawful to swallow the message, or to refuse
/// its bytes (RFC 9112, section 2.2).
pub fn messages_are_answered<S: Servlet, F: Filter, L: Listener, W: Words>()
    ensures { MessagesAreAnswered (steps_of S.servlet_step F.filter_step L.listener_step) W.draws }
{
    feedings_may_be_cut();
    readings_are_unique();
}

/// The items that a piece completes are answered in their order, each by its own deed and bytes, up to the first that closes
/// the connection. It is not lawful to leave out the answer to a message, to refuse it, to answer it by another context, or
/// to exchange the responses of two messages (RFC 9112, sections 9.2, 9.3 and 9.6).
pub fn items_are_answered_in_order<S: Servlet, F: Filter, L: Listener, W: Words>()
    ensures { ItemsAreAnsweredInOrder (steps_of S.servlet_step F.filter_step L.listener_step) W.draws }
{
    feedings_may_be_cut();
    readings_are_unique();
}

/// The bytes that are sent for a message are the text of the response to it. It is not lawful to send the response of
/// another request (RFC 9112, section 9.2).
pub fn responses_are_of_their_request<S: Servlet, F: Filter, L: Listener, W: Words>()
    ensures { ResponsesAreOfTheirRequest (steps_of S.servlet_step F.filter_step L.listener_step) W.draws }
{
    feedings_may_be_cut();
    readings_are_unique();
}
