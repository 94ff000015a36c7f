//! The theorem over scripts and over connections. Each law is the contract of a function that only calls other laws.

ghost use Rattle.sv_component.specs.Steps.{steps_of};
ghost use Rattle.sv_headline.specs.Callers.{CallersOfAStartedContainerHaveLoggedIn};
ghost use Rattle.sv_headline.specs.Connection.{WhatAConnectionIsSentIsLawful};
ghost use Rattle.sv_headline.specs.Cut.{WhatARefusedScriptPrintsBeginsTheWhole, WhatARefusedScriptPrintsIsCut};
ghost use Rattle.sv_headline.specs.Failing.{WhatAFailedOutputHoldsIsLawful, WhatARefusedStartPrintsIsItsText};
ghost use Rattle.sv_headline.specs.Headline.{WhatAScriptPrintsIsLawful};
ghost use Rattle.sv_headline.specs.Loop.{WhatAnEventLoopDoesIsLawful};
ghost use Rattle.sv_headline.specs.Memory.{AScriptInMemoryPrintsItsRun};
ghost use Rattle.sv_headline.specs.Refused.{TheUndispatchedCallNone};

use crate::contexts::sessions_of_contexts_stay_in_order;
use crate::record::every_run_is_lawful_until_memory_is_refused;
use crate::runs::{callers_logged_in_since_the_start, requests_enter_exactly_where_allowed};
use sv_component::{Filter, Listener, Servlet};
use sv_connection::{Poller, a_connection_is_a_run, an_event_loop_is_a_run};
use sv_container::{Container, Running};
use sv_context::Context;
use sv_run::{CountedWords, EventHandler, Words};
use sv_script::{
    a_cut_text_begins_the_whole, a_failed_output_holds_a_part, a_refused_run_is_cut,
    a_run_writes_one_text, a_script_is_a_lawful_run,
};
use sv_streams::{Clock, MemoryStream, Sink, Source, Stream};

/// In every run of a started container, until memory runs out, a session holds a caller only by a login to it as that
/// caller. No later message has undone that login. So every caller has logged in (Jakarta Servlet 6.0, section 13.6.3).
pub fn callers_of_a_started_container_have_logged_in<S: Servlet, F: Filter, L: Listener, W: Words>()
    ensures { CallersOfAStartedContainerHaveLoggedIn (steps_of S.servlet_step F.filter_step L.listener_step) W.draws }
{
    sessions_of_contexts_stay_in_order::<S, F, L>();
    callers_logged_in_since_the_start::<S, F, L, W>();
}

/// If a script ends well or at a faulty line, the output is the text of a run of the container: its start, the events
/// that the script asks for, and its stop. That run is lawful (`every_run_is_lawful`). A message enters exactly if the
/// combined constraints allow its method and its path to the caller of its session; every other message has a named
/// cause. Components are moved by exactly the calls that the entries of the text note (Jakarta Servlet 6.0, section
/// 13.8). Every caller at the end of the run has logged in.
pub fn what_a_script_prints_is_lawful<S: Servlet, F: Filter, L: Listener, I: Source, O: Sink>()
    ensures { WhatAScriptPrintsIsLawful (steps_of S.servlet_step F.filter_step L.listener_step) I.makes O.makes }
{
    every_run_is_lawful_until_memory_is_refused::<S, F, L, CountedWords>();
    callers_of_a_started_container_have_logged_in::<S, F, L, CountedWords>();
    requests_enter_exactly_where_allowed::<S, F, L, CountedWords>();
    a_run_writes_one_text::<Running<S, F, L, CountedWords>, I, O>();
    a_script_is_a_lawful_run::<Running<S, F, L, CountedWords>, Context<S, F, L>, CountedWords>();
}

/// A script in memory that ends well appends the text of its run to the output: the text of the container's start, of
/// the events of its lines, numbered from 1, and of the stop. The run is lawful.
pub fn a_script_in_memory_prints_its_run<S: Servlet, F: Filter, L: Listener>()
    ensures { AScriptInMemoryPrintsItsRun (steps_of S.servlet_step F.filter_step L.listener_step) }
{
    what_a_script_prints_is_lawful::<S, F, L, MemoryStream, MemoryStream>();
}

/// A run of a script that ends out of memory has written nothing, or the text of the container's start and of the
/// events before the failure. Those events are a lawful run, and the container was shut down.
pub fn what_a_refused_script_prints_is_cut<S: Servlet, F: Filter, L: Listener, I: Source, O: Sink>()
    ensures { WhatARefusedScriptPrintsIsCut (steps_of S.servlet_step F.filter_step L.listener_step) I.makes O.makes }
{
    every_run_is_lawful_until_memory_is_refused::<S, F, L, CountedWords>();
    callers_of_a_started_container_have_logged_in::<S, F, L, CountedWords>();
    requests_enter_exactly_where_allowed::<S, F, L, CountedWords>();
    a_refused_run_is_cut::<Running<S, F, L, CountedWords>, I, O>();
    a_script_is_a_lawful_run::<Running<S, F, L, CountedWords>, Context<S, F, L>, CountedWords>();
}

/// The output of a run that ends out of memory begins the output of a complete run, which ends well or at a faulty
/// line. It does so if both starts note the same entries and the first events have the same reactions.
pub fn what_a_refused_script_prints_begins_the_whole<
    S: Servlet,
    F: Filter,
    L: Listener,
    I: Source,
    O: Sink,
>()
    ensures { WhatARefusedScriptPrintsBeginsTheWhole (steps_of S.servlet_step F.filter_step L.listener_step) I.makes O.makes }
{
    a_cut_text_begins_the_whole::<Running<S, F, L, CountedWords>, I, O>();
}

/// A script whose container refuses to start is not read. The output is the text of the entries of the start.
pub fn what_a_refused_start_prints_is_its_text<
    S: Servlet,
    F: Filter,
    L: Listener,
    I: Source,
    O: Sink,
>()
    ensures { WhatARefusedStartPrintsIsItsText (steps_of S.servlet_step F.filter_step L.listener_step) I.makes O.makes }
{}

/// If a write to the output fails, the output is the first bytes of the text of a run of the container, from its start
/// over the events that the script asks for to its stop. That run is lawful (`every_run_is_lawful`), and nothing was
/// written after the failure. If the container refused to start, the output is the first bytes of the text of the start.
pub fn what_a_failed_output_holds_is_lawful<
    S: Servlet,
    F: Filter,
    L: Listener,
    I: Source,
    O: Sink,
>()
    ensures { WhatAFailedOutputHoldsIsLawful (steps_of S.servlet_step F.filter_step L.listener_step) I.makes O.makes }
{
    every_run_is_lawful_until_memory_is_refused::<S, F, L, CountedWords>();
    callers_of_a_started_container_have_logged_in::<S, F, L, CountedWords>();
    requests_enter_exactly_where_allowed::<S, F, L, CountedWords>();
    a_failed_output_holds_a_part::<Running<S, F, L, CountedWords>, I, O>();
    a_script_is_a_lawful_run::<Running<S, F, L, CountedWords>, Context<S, F, L>, CountedWords>();
}

/// The output of a connection is sent by a run of the container over the pieces of input that are read. The run goes
/// from the opening of the connection to its end or to the event that is refused. Responses follow one another; all
/// are written, or, if a write fails, a first part of the bytes (RFC 9112, section 9). The entries of the run report
/// the outcome of each message once, in order. A request enters exactly if the combined constraints allow its method
/// and its path to the caller of its session (Jakarta Servlet 6.0, section 13.8). If the container was running at the
/// start, the run is lawful (`every_run_is_lawful`) until memory runs out.
pub fn what_a_connection_is_sent_is_lawful<
    S: Servlet,
    F: Filter,
    L: Listener,
    W: Words,
    T: Stream,
    C: Clock,
>()
    ensures { WhatAConnectionIsSentIsLawful (steps_of S.servlet_step F.filter_step L.listener_step) W.draws T.makes C.tells }
{
    every_run_is_lawful_until_memory_is_refused::<S, F, L, W>();
    requests_enter_exactly_where_allowed::<S, F, L, W>();
    a_connection_is_a_run::<Container<S, F, L, W>, T, C, Context<S, F, L>, W>();
}

/// All connections that an event loop serves at once are served by one run of the container, if the handler takes each
/// event as a run does. The command `run` serves so. Each stream that the poller gives is led only by the calls of its own
/// connection until it is closed. The bytes written to it are those that the run sends to this connection, in order, or
/// the first of them (RFC 9112, section 9). The entries of the run report the outcome of each message once, in order. A request
/// enters exactly if the combined constraints allow its method and its path to the caller of its session (Jakarta Servlet
/// 6.0, section 13.8). If the container was running at the start, the run is lawful (`every_run_is_lawful`) until memory
/// runs out.
pub fn what_an_event_loop_does_is_lawful<
    S: Servlet,
    F: Filter,
    L: Listener,
    W: Words,
    R: EventHandler,
    N: Poller,
    C: Clock,
>()
    ensures { WhatAnEventLoopDoesIsLawful (steps_of S.servlet_step F.filter_step L.listener_step) W.draws N.Peer.ways R.steps C.tells N.polls R.awaited }
{
    every_run_is_lawful_until_memory_is_refused::<S, F, L, W>();
    requests_enter_exactly_where_allowed::<S, F, L, W>();
    an_event_loop_is_a_run::<R, N, C, Context<S, F, L>, W>();
}

/// An event that runs out of memory leaves the servlets and filters of a context unchanged, if it dispatched none of
/// the context's requests. So they are not called for a request that is refused without a page or redirected, for a
/// request to another context, or for an expiry.
pub fn the_undispatched_call_none<S: Servlet, F: Filter, L: Listener, W: Words>()
    ensures { TheUndispatchedCallNone (steps_of S.servlet_step F.filter_step L.listener_step) W.draws }
{}
