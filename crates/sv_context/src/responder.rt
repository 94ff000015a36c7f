//! Answering admitted requests.

ghost use Rattle.sv_component.specs.Steps.{steps_of};
ghost use Rattle.std.specs.Prelude.{◌≡◌, IfOk, List, OnErr, OnOk, Some, length, true};
ghost use Rattle.std.specs.Option.{option_copied};
ghost use Rattle.http.specs.StatusCode.{IsStatusCode};
ghost use Rattle.sv_admission.specs.Admission.{settled_in};
ghost use Rattle.sv_exchange.specs.Asked.{asked_in};
ghost use Rattle.sv_admission.specs.declared.answer.Answer.TheVariants.{Error};
ghost use Rattle.sv_dispatch.specs.Did.{seen};
ghost use Rattle.sv_dispatch.specs.ServedBy.{Alone, ServedBy};
ghost use Rattle.sv_exchange.specs.Beginning.{begun};
ghost use Rattle.sv_exchange.specs.State as exchanges;
ghost use Rattle.sv_live.specs.World.{HasSameCounts};
ghost use Rattle.sv_policy.specs.Compiled.{Standing};
ghost use Rattle.sv_realm.specs.declared.account.User.{User};
ghost use Rattle.sv_session.specs.Store.{Store};
ghost use Rattle.sv_tree.specs.SiteOfDescriptor.{site_of};
ghost use Rattle.sv_tree.specs.Served.{Served, ShowsError};
ghost use Rattle.sv_tree.specs.Site.{Site as SiteData};
ghost use Rattle.sv_tree.specs.Telling.{hears};
ghost use Rattle.sv_uri.specs.declared.path.Canon.{Canon as CanonData};
ghost use Rattle.sv_context.specs.Answered.{Answered, Answers, Requested, SendsTo, Tells};
ghost use Rattle.sv_context.specs.Handled.{HandlesMessage, admitted};
ghost use Rattle.sv_context.specs.Responding.{EndsExchange, RespondsNoted};
ghost use Rattle.sv_context.specs.State.{AreComponentsOf, AreCounted, context_of};

use std::alloc::Global;
use sv_admission::{Admission, Answer, SEE_OTHER};
use sv_component::{Event, Exchange, Filter, Listener, Servlet};
use sv_dispatch::{made, serve, show_error};
use sv_exchange::{HeldSession, Request};
use sv_journal::{Entry, Journal};
use sv_live::Live;
use sv_mapping::Kind;
use sv_message::Response;
use sv_session::Sessions;
use sv_text::NoMemory;
use sv_tree::Site;
use sv_uri::path::Canon;

/// The part of a context that answers requests: its site, its started components, and an exchange that serves one
/// request after another.
#[derive(Drop)]
pub(crate) struct Responder<S, F, L> {
    pub site: Site,
    pub live: Live<S, F, L>,
    pub exchange: Exchange,
}

impl<S: Servlet, F: Filter, L: Listener> Responder<S, F, L> {
    /// Answers an admitted request. The sessions are lent to its exchange, and returned in every case.
    ///
    /// # Errors
    /// `NoMemory` if memory runs out or the journal breaks: calls that were made are not undone.
    #[inline(always)]
    pub fn answer(
        &mut self,
        alloc: Global,
        request: Request<'_>,
        admission: Admission,
        sessions: &mut Sessions,
        journal: &mut Journal,
    ) -> Result<Response, NoMemory>
        requires components { AreComponentsOf self.old.site self.old.live }
        requires whole { journal.old.whole ≡ true }
        ensures handles { (policy : Standing) (users : List User) (store : Store)
            → admission ≡ admitted (context_of self.old.site policy users self.old.live store) (asked_in request.entry)
            → sessions.old.store ≡ (settled_in self.old.site policy users (asked_in request.entry) store).store
            → HandlesMessage (steps_of S.servlet_step F.filter_step L.listener_step) (asked_in request.entry)
            (context_of self.old.site policy users self.old.live store) journal.old (seen result)
            (context_of self.old.site policy users self.new.live sessions.new.store) journal.new }
        ensures components { AreComponentsOf self.old.site self.new.live }
        ensures status { IfOk result (λ response. IsStatusCode response.status) }
        ensures site { self.new.site ≡ self.old.site }
    {
        let Admission {
            entry,
            answer,
            session,
            event,
        } = admission;
        let canon = request.canon;
        match begin(&mut self.exchange, &self.site, request, session, sessions) {
            Ok(()) => self.answer_begun(alloc, canon, entry, event, answer, sessions, journal),
            Err(NoMemory) => Err(NoMemory),
        }
    }

    // Answers a request after its exchange has begun, and reclaims the sessions from the exchange.
    fn answer_begun(
        &mut self,
        alloc: Global,
        canon: &Canon,
        entry: Entry,
        event: Option<Event>,
        answer: Answer,
        sessions: &mut Sessions,
        journal: &mut Journal,
    ) -> Result<Response, NoMemory>
        requires components { AreComponentsOf self.old.site self.old.live }
        requires whole { journal.old.whole ≡ true }
        ensures ends { EndsExchange (steps_of S.servlet_step F.filter_step L.listener_step) (site_of self.old.site) canon.now entry event answer
            self.old.live self.old.exchange journal.old (seen result) self.new.live sessions.new.store journal.new }
        ensures components { AreComponentsOf self.old.site self.new.live }
        ensures site { self.new.site ≡ self.old.site }
    {
        let done = self.respond_noted(alloc, canon, entry, event.as_ref(), &answer, journal);
        let response = self.exchange.finish(sessions);
        match done {
            Ok(()) => Ok(response),
            Err(refusal) => Err(refusal),
        }
    }

    // Logs an admitted request in the journal, and answers it.
    fn respond_noted(
        &mut self,
        alloc: Global,
        canon: &Canon,
        entry: Entry,
        event: Option<&Event>,
        answer: &Answer,
        journal: &mut Journal,
    ) -> Result<(), NoMemory>
        requires components { AreComponentsOf self.old.site self.old.live }
        requires whole { journal.old.whole ≡ true }
        ensures responds { RespondsNoted (steps_of S.servlet_step F.filter_step L.listener_step) (site_of self.old.site) canon.now entry (option_copied event.entry) answer.now
            self.old.live self.old.exchange journal.old (seen result) self.new.live self.new.exchange journal.new }
        ensures components { AreComponentsOf self.old.site self.new.live }
        ensures whole { OnOk result (journal.new.whole ≡ true) }
        ensures site { self.new.site ≡ self.old.site }
    {
        journal.note(Ok(entry));
        if !journal.whole() {
            return Err(NoMemory);
        }
        self.respond(alloc, canon, event, answer, journal)
    }

    // Notifies the listeners of the admission's session event, and answers the request.
    fn respond(
        &mut self,
        alloc: Global,
        canon: &Canon,
        event: Option<&Event>,
        answer: &Answer,
        journal: &mut Journal,
    ) -> Result<(), NoMemory>
        requires counts { AreCounted self.old.site self.old.live }
        requires whole { journal.old.whole ≡ true }
        ensures answered { ServedBy (steps_of S.servlet_step F.filter_step L.listener_step) (Answered (site_of self.old.site) canon.now (option_copied event.entry) answer.now)
            self.old.live self.old.exchange journal.old (seen result) self.new.live self.new.exchange journal.new }
        ensures whole { OnOk result (journal.new.whole ≡ true) }
        ensures site { self.new.site ≡ self.old.site }
    {
        let Ok(()) = tell_first(alloc, &mut self.live, event, journal) else {
            return Err(NoMemory);
        };
        self.answer_by(alloc, canon, answer, journal)
    }

    // Answers the request, by the kind of the answer.
    fn answer_by(
        &mut self,
        alloc: Global,
        canon: &Canon,
        answer: &Answer,
        journal: &mut Journal,
    ) -> Result<(), NoMemory>
        requires counts { AreCounted self.old.site self.old.live }
        requires whole { journal.old.whole ≡ true }
        ensures answered { ServedBy (steps_of S.servlet_step F.filter_step L.listener_step) (Answers (site_of self.old.site) canon.now answer.now)
            self.old.live self.old.exchange journal.old (seen result) self.new.live self.new.exchange journal.new }
        ensures whole { OnOk result (journal.new.whole ≡ true) }
        ensures site { self.new.site ≡ self.old.site }
    {
        match answer {
            Answer::Entered => self.request(alloc, Kind::Request, canon, journal),
            Answer::Page(page) => self.request(alloc, Kind::Forward, page.get(), journal),
            Answer::Error(status, page) => self.error(alloc, *status, page.get(), journal),
            Answer::SeeOther(location) => send_to(&mut self.exchange, location.as_str()),
        }
    }

    // Dispatches a request, and notifies the listeners before and after.
    #[inline(always)]
    fn request(
        &mut self,
        alloc: Global,
        kind: Kind,
        canon: &Canon,
        journal: &mut Journal,
    ) -> Result<(), NoMemory>
        requires { AreCounted self.old.site self.old.live }
        ensures answered { ServedBy (steps_of S.servlet_step F.filter_step L.listener_step) (Requested (site_of self.old.site) (Served (site_of self.old.site) kind canon.now))
            self.old.live self.old.exchange journal.old (seen result) self.new.live self.new.exchange journal.new }
        ensures whole { OnOk result (journal.new.whole ≡ true) }
        ensures site { self.new.site ≡ self.old.site }
    {
        let Ok(()) = hear(alloc, &mut self.live, &Event::RequestInitialized, journal) else {
            return Err(NoMemory);
        };
        let Ok(()) = serve(
            alloc,
            &mut self.live,
            &mut self.exchange,
            &mut self.site,
            kind,
            canon,
            journal,
        ) else {
            return Err(NoMemory);
        };
        hear(alloc, &mut self.live, &Event::RequestDestroyed, journal)
    }

    // Answers an error by its page, or in plain text if there is none.
    fn error(
        &mut self,
        alloc: Global,
        status: u16,
        page: Option<&Canon>,
        journal: &mut Journal,
    ) -> Result<(), NoMemory>
        requires counts { AreCounted self.old.site self.old.live }
        requires whole { journal.old.whole ≡ true }
        ensures answered { (canon : CanonData) → ServedBy (steps_of S.servlet_step F.filter_step L.listener_step) (Answers (site_of self.old.site) canon (Error status (option_copied page.entry)))
            self.old.live self.old.exchange journal.old (seen result) self.new.live self.new.exchange journal.new }
        ensures whole { OnOk result (journal.new.whole ≡ true) }
        ensures site { self.new.site ≡ self.old.site }
    {
        match page {
            Some(page) => self.request_page(alloc, status, page, journal),
            None => show_error(
                alloc,
                &mut self.live,
                &mut self.exchange,
                &mut self.site,
                status,
                None,
                journal,
            ),
        }
    }

    // Dispatches to an error page, and notifies the listeners before and after.
    fn request_page(
        &mut self,
        alloc: Global,
        status: u16,
        page: &Canon,
        journal: &mut Journal,
    ) -> Result<(), NoMemory>
        requires { AreCounted self.old.site self.old.live }
        ensures answered { ServedBy (steps_of S.servlet_step F.filter_step L.listener_step) (Requested (site_of self.old.site) (ShowsError (site_of self.old.site) status (Some page.now)))
            self.old.live self.old.exchange journal.old (seen result) self.new.live self.new.exchange journal.new }
        ensures whole { OnOk result (journal.new.whole ≡ true) }
        ensures site { self.new.site ≡ self.old.site }
    {
        let Ok(()) = hear(alloc, &mut self.live, &Event::RequestInitialized, journal) else {
            return Err(NoMemory);
        };
        let Ok(()) = show_error(
            alloc,
            &mut self.live,
            &mut self.exchange,
            &mut self.site,
            status,
            Some(page),
            journal,
        ) else {
            return Err(NoMemory);
        };
        hear(alloc, &mut self.live, &Event::RequestDestroyed, journal)
    }
}

// Begins the exchange of a request in its context.
fn begin(
    exchange: &mut Exchange,
    site: &Site,
    request: Request<'_>,
    held: Option<HeldSession>,
    sessions: &mut Sessions,
) -> Result<(), NoMemory>
    ensures begun { OnOk result (exchange.new ≡ begun (asked_in request.entry) site.now.context_path site.now.app.session.cookie held sessions.old.store) }
    ensures kept { OnErr result (sessions.new ≡ sessions.old) }
{
    let settings = &site.descriptor().web_app().session.cookie;
    exchange.begin(request, site.context_path(), settings, held, sessions)
}

// Notifies the listeners of the admission's session event, if any.
fn tell_first<S: Servlet, F: Filter, L: Listener>(
    alloc: Global,
    live: &mut Live<S, F, L>,
    event: Option<&Event>,
    journal: &mut Journal,
) -> Result<(), NoMemory>
    requires { journal.old.whole ≡ true }
    ensures told { (site : SiteData) (exchange : exchanges.State) → length live.old.parts.listeners.items ≡ site.listeners
        → ServedBy (steps_of S.servlet_step F.filter_step L.listener_step) (Tells site (option_copied event.entry))
        live.old exchange journal.old (seen result) live.new exchange journal.new }
    ensures counts { HasSameCounts live.old.parts live.new.parts }
    ensures whole { OnOk result (journal.new.whole ≡ true) }
{
    match event {
        Some(event) => hear(alloc, live, event, journal),
        None => Ok(()),
    }
}

// Notifies each listener of the event.
fn hear<S: Servlet, F: Filter, L: Listener>(
    alloc: Global,
    live: &mut Live<S, F, L>,
    event: &Event,
    journal: &mut Journal,
) -> Result<(), NoMemory>
    ensures heard { (exchange : exchanges.State) → ServedBy (steps_of S.servlet_step F.filter_step L.listener_step) (hears (length live.old.parts.listeners.items) event.now)
        live.old exchange journal.old (seen result) live.new exchange journal.new }
    ensures counts { HasSameCounts live.old.parts live.new.parts }
    ensures whole { OnOk result (journal.new.whole ≡ true) }
{
    live.tell_all(alloc, event, journal);
    unless_broken(journal)
}

// Fails if the journal is broken.
fn unless_broken(journal: &Journal) -> Result<(), NoMemory>
    ensures { OnOk result (journal.now.whole ≡ true) }
{
    if journal.whole() {
        Ok(())
    } else {
        Err(NoMemory)
    }
}

// Redirects the client to another location.
fn send_to(exchange: &mut Exchange, location: &str) -> Result<(), NoMemory>
    ensures { Alone (SendsTo location.now) exchange.old exchange.new (seen result) }
{
    let Ok(()) = made(exchange.set_status(SEE_OTHER)) else {
        return Err(NoMemory);
    };
    made(exchange.set_header("location", location))
}
