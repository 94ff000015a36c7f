//! An exchange: how it begins and ends.

ghost use Rattle.std.specs.Prelude.{◌≡◌, ◌==◌, [], None, OnErr, OnOk, false};
ghost use Rattle.sv_exchange.specs.Asked.{asked_in};
ghost use Rattle.sv_exchange.specs.Paths.{paths_at};
ghost use Rattle.sv_exchange.specs.declared.limits.TheConstants.{OK};

use crate::attributes::Attribute;
use crate::dispatch::{PathTexts, Paths, shown};
use crate::dispatches::Dispatches;
use crate::error::KeptError;
use crate::flushed_body::{Flushed, body_of};
use crate::limits::{MAX_KEPT_BUFFER_BYTES, MAX_KEPT_FIELDS, OK};
use crate::request::Request;
use crate::reused_texts::{no_settings, no_text, set_settings, set_text};
use crate::session_queries::{HeldSession, held_cookie, parts_of};
use http::Method;
use std::alloc::Global;
use std::collections::VecDeque;
use std::marker::Model;
use std::mem;
use sv_message::{Body, Cookie, CookieSettings, Field, Message, Rare, Response, Segments};
use sv_realm::Caller;
use sv_session::{Event, Sessions};
use sv_text::{Bytes, Listed, NoMemory, Text};
use sv_uri::path::Canon;

/// A request and the response that components make (Jakarta Servlet 6.0, chapters 3 and 5). Contracts see it as a
/// `State`.
#[derive(Drop)]
pub struct Exchange {
    pub(crate) alloc: Global,
    pub(crate) method: Method,
    pub(crate) context_path: Text,
    pub(crate) cookie_settings: CookieSettings,
    pub(crate) request_fields: Vec<Field>,
    pub(crate) body: Bytes,
    pub(crate) moment: u64,
    pub(crate) reads_chunks: bool,
    pub(crate) client: Paths,
    pub(crate) dispatches: Dispatches,
    pub(crate) attributes: Vec<Attribute>,
    pub(crate) status: u16,
    pub(crate) fields: Vec<Field>,
    pub(crate) flushed: Flushed,
    pub(crate) buffer: Segments,
    pub(crate) committed: bool,
    pub(crate) broken: bool,
    pub(crate) calls: u32,
    pub(crate) kept: Rare<KeptError>,
    pub(crate) words: (u64, u64),
    pub(crate) sessions: Sessions,
    pub(crate) session: Option<u64>,
    pub(crate) caller: Rare<Caller>,
    pub(crate) cookie: Rare<Cookie>,
    pub(crate) events: VecDeque<Event>,
}

impl Model for Exchange {
    ghost use Rattle.sv_exchange.specs.State.{State};

    ghost Value = { State };

    ghost view = { λ e. record {
      method = e.method;
      context_path = e.context_path;
      cookie_settings = e.cookie_settings;
      request_fields = e.request_fields.items;
      body = e.body;
      moment = e.moment;
      reads_chunks = e.reads_chunks;
      client = e.client;
      dispatches = e.dispatches;
      attributes = e.attributes.items;
      status = e.status;
      fields = e.fields.items;
      flushed = e.flushed;
      buffer = e.buffer;
      committed = e.committed;
      broken = e.broken;
      calls = e.calls;
      kept = e.kept;
      words = e.words;
      store = e.sessions.store;
      session = e.session;
      caller = e.caller;
      cookie = e.cookie;
      events = e.events.items;
    } };
}

impl Exchange {
    ghost use Rattle.sv_exchange.specs.Beginning.{begun, finished, unasked};

    /// Returns an exchange without a request. Takes no memory.
    pub fn new(alloc: Global) -> Exchange
        ensures { result ≡ unasked }
    {
        Exchange {
            alloc,
            method: Method::GET,
            context_path: no_text(alloc),
            cookie_settings: no_settings(alloc),
            request_fields: Vec::new(alloc),
            body: Bytes::from_vec(Vec::new(alloc)),
            moment: 0,
            reads_chunks: false,
            client: Paths::empty(alloc),
            dispatches: Dispatches::new(alloc),
            attributes: Vec::new(alloc),
            status: OK,
            fields: Vec::new(alloc),
            flushed: Flushed::new(alloc),
            buffer: Segments::new(alloc),
            committed: false,
            broken: false,
            calls: 0,
            kept: Rare::none(),
            words: (0, 0),
            sessions: Sessions::new(alloc, 0, 0),
            session: None,
            caller: Rare::none(),
            cookie: Rare::none(),
            events: VecDeque::new(alloc),
        }
    }

    /// Begins with a request to the context with the path and the settings of its session cookie. The earlier request
    /// and response are dropped.
    ///
    /// The fields and the body are moved out of the message, whose content is then unspecified. The context's sessions
    /// are swapped with those of the exchange until [`finish`](Exchange::finish), and the session that the request
    /// holds is one of them. The context's path and settings are copied only if they changed. The attributes, the
    /// fields, the buffer and the dispatches keep their memory.
    ///
    /// # Errors
    /// `NoMemory` if an allocation failed. The sessions are unchanged. The state of the exchange is unspecified, but it
    /// can begin again.
    pub fn begin(
        &mut self,
        request: Request<'_>,
        context_path: &str,
        cookie_settings: &CookieSettings,
        held: Option<HeldSession>,
        sessions: &mut Sessions,
    ) -> Result<(), NoMemory>
        ensures begun { OnOk result (self.new ≡ begun (asked_in request.entry) context_path.now cookie_settings.now held sessions.old.store) }
        ensures lent { OnOk result (sessions.new.store ≡ self.old.store) }
        ensures kept { OnErr result (sessions.new ≡ sessions.old) }
    {
        let Request {
            message,
            canon,
            moment,
            words,
        } = request;
        let cookie = held_cookie(self.alloc, cookie_settings, context_path, sessions, &held)?;
        self.ask(canon, context_path, cookie_settings)?;
        self.take(message);
        let (session, caller) = parts_of(held);
        self.moment = moment;
        self.words = words;
        mem::swap(&mut self.sessions, sessions);
        self.session = session;
        self.caller = caller;
        self.cookie = cookie;
        self.forget();
        Ok(())
    }

    // Moves the content out of a message.
    fn take(&mut self, message: &mut Message)
        ensures { self.new ≡ record self.old {
          method = message.old.method;
          request_fields = message.old.fields;
          body = message.old.body;
          reads_chunks = message.old.minor == 1;
        } }
    {
        let fields = mem::replace(&mut self.request_fields, Vec::new(self.alloc));
        mem::swap(&mut self.method, &mut message.method);
        mem::swap(&mut self.body, &mut message.body);
        self.request_fields = mem::replace(
            &mut message.fields,
            Listed::from_vec(fields),
        ).into_vec();
        self.reads_chunks = message.minor == 1;
    }

    // Sets the requested path, its context and the settings of the session cookie.
    fn ask(
        &mut self,
        canon: &Canon,
        context_path: &str,
        cookie_settings: &CookieSettings,
    ) -> Result<(), NoMemory>
        ensures { OnOk result (self.new ≡ record self.old {
          context_path = context_path.now;
          cookie_settings = cookie_settings.now;
          client = paths_at context_path.now canon.now.path None None canon.now.query;
        }) }
    {
        let paths = PathTexts {
            context_path,
            path: canon.path.as_str(),
            servlet_path: None,
            path_info: None,
            query: shown(&canon.query),
        };
        self.client.set(self.alloc, &paths)?;
        set_text(self.alloc, &mut self.context_path, context_path)?;
        set_settings(self.alloc, &mut self.cookie_settings, cookie_settings)
    }

    // Resets the response, the dispatches, the attributes and the events.
    fn forget(&mut self)
        ensures { self.new ≡ record self.old {
          dispatches = [];
          attributes = [];
          status = OK;
          fields = [];
          flushed = [];
          buffer = [];
          committed = false;
          broken = false;
          calls = 0;
          kept = None;
          events = [];
        } }
    {
        self.dispatches.clear();
        clear(&mut self.attributes);
        self.status = OK;
        clear(&mut self.fields);
        self.flushed = Flushed::new(self.alloc);
        self.buffer.clear();
        self.committed = false;
        self.broken = false;
        self.calls = 0;
        self.kept = Rare::none();
        self.events = VecDeque::new(self.alloc);
    }

    /// Ends the exchange, returns its response and swaps the context's sessions back, without taking memory. The
    /// response sets the cookie of the session that the message opened or renamed last, unless that session ended
    /// before the response was committed. The body of a committed response is sent in pieces, with the bytes written
    /// since the last flush at the end unless the response is truncated.
    ///
    /// The state of the exchange is then unspecified, but it can begin again. It drops the caller, the attributes, and
    /// the fields and the body of the request.
    pub fn finish(&mut self, sessions: &mut Sessions) -> Response
        ensures response { result ≡ finished self.old }
        ensures sessions { sessions.new.store ≡ self.old.store }
    {
        let body = body_of(
            self.committed,
            mem::replace(&mut self.flushed, Flushed::new(self.alloc)),
            mem::replace(&mut self.buffer, Segments::new(self.alloc)),
            self.reads_chunks,
            self.broken,
        );
        let fields = mem::replace(&mut self.fields, Vec::new(self.alloc));
        let cookie = mem::replace(&mut self.cookie, Rare::none());
        mem::swap(sessions, &mut self.sessions);
        clear(&mut self.request_fields);
        clear(&mut self.attributes);
        self.body = Bytes::from_vec(Vec::new(self.alloc));
        self.caller = Rare::none();
        Response {
            status: self.status,
            fields: Listed::from_vec(fields),
            cookie,
            body,
        }
    }

    /// Reuses the memory of a response that was written. The list of fields is kept if its capacity is at most
    /// [`MAX_KEPT_FIELDS`], and the buffer of a whole body if its capacity is at most [`MAX_KEPT_BUFFER_BYTES`]. The fields
    /// and the buffer of the exchange become empty.
    pub fn recycle(&mut self, response: Response)
        ensures { self.new ≡ record self.old { fields = []; buffer = [] } }
    {
        let Response { fields, body, .. } = response;
        self.fields = emptied(self.alloc, fields.into_vec(), MAX_KEPT_FIELDS);
        self.buffer = Segments::from_vec(emptied(
            self.alloc,
            room_of(self.alloc, body),
            MAX_KEPT_BUFFER_BYTES,
        ));
    }
}

// Returns the memory of a whole body, and none for a body in pieces.
fn room_of(alloc: Global, body: Body) -> Vec<u8> {
    match body {
        Body::Whole(bytes) => bytes.into_room(),
        Body::Flushed { .. } => Vec::new(alloc),
    }
}

// Empties a list, and drops its memory if its capacity is greater than `most`.
fn emptied<T: Drop>(alloc: Global, list: Vec<T>, most: usize) -> Vec<T>
    ensures { result.items ≡ [] }
{
    if list.capacity() > most {
        return Vec::new(alloc);
    }
    let mut list = list;
    clear(&mut list);
    list
}

// Drops the items of a list, which keeps its memory.
fn clear<T: Drop>(list: &mut Vec<T>)
    ensures { list.new.items ≡ [] }
{
    if !list.is_empty() {
        list.clear();
    }
}
