//! The control socket, a Unix socket file that takes commands for a running server.

ghost use Rattle.std.specs.Prelude.{◌≡◌, Some, true};
ghost use Rattle.sv_connection.specs.declared.poller.PollEvent.TheVariants.{Asked, Stop};
ghost use Rattle.sv_readiness.specs.Asking as spec;
ghost use Rattle.sv_readiness.specs.Polling.{IsLine, IsStopLine, RepliesAt};

use crate::control_client::{ControlClient, Progress};
use crate::control_clients::ControlClients;
use crate::control_commands::asks_to_stop;
use crate::control_replies::{last_text, reply};
use crate::crowd::lacks_room;
use crate::limits::{MAX_ASKING_SECONDS, MAX_CONTROL_CLIENTS};
use mio::net::{UnixListener, UnixStream};
use mio::{Interest, Registry, Token};
use std::alloc::Global;
use std::mem;
use sv_connection::{Figures, PollEvent, Queries};
use sv_run::{EventHandler, StepFault};
use sv_text::{Bytes, NoMemory};

/// The token of the control socket. No connection has it as its number.
pub(crate) const CONTROL: usize = usize::MAX - 1;

/// The first token of the clients of the control socket. No connection has this number or a greater one.
pub(crate) const FIRST_CLIENT: usize = CONTROL - MAX_CONTROL_CLIENTS;

const STOPPING: &[u8] = b"stopping\n";

const NO_MEMORY: &[u8] = b"no memory\n";

/// The listener of the control socket and its clients, up to [`MAX_CONTROL_CLIENTS`] at once. Each sends one line and
/// receives one reply. If there are more, the one whose time ends first makes room, so clients that send nothing do not
/// delay others.
#[derive(Drop)]
pub(crate) struct Control<'a> {
    alloc: Global,
    registry: &'a Registry,
    listener: UnixListener,
    clients: ControlClients,
    // The client whose whole line is answered next, its place, and this line.
    asker: Option<(usize, ControlClient)>,
    line: Vec<u8>,
    // The lead in seconds of the wall clock over the time of the container.
    offset: i64,
    has_come: bool,
    has_refused: bool,
    stopper: Option<ControlClient>,
}

impl<'a> Control<'a> {
    /// Returns a control socket without a client. The registry reports the readiness of its clients.
    pub fn new(alloc: Global, registry: &'a Registry, listener: UnixListener) -> Control<'a> {
        Control {
            alloc,
            registry,
            listener,
            clients: ControlClients::new(alloc),
            asker: None,
            line: Vec::new(alloc),
            offset: 0,
            has_come: false,
            has_refused: false,
            stopper: None,
        }
    }

    /// Accepts all clients that wait.
    pub fn welcome(&mut self, now: u64) {
        self.has_refused = false;
        for _ in 0..u64::MAX {
            match self.listener.accept() {
                Ok((stream, _)) => {
                    self.has_come = false;
                    self.take(stream, now);
                }
                Err(error) if lacks_room(&error) => {
                    self.note_refusal();
                    return;
                }
                Err(_) => {
                    self.has_come = false;
                    return;
                }
            }
        }
    }

    /// Accepts all clients that wait, after the system reported that one is waiting.
    pub fn welcome_told(&mut self, now: u64) {
        self.has_come = true;
        self.welcome(now);
    }

    // Notes that the system has no capacity for another client. Linux also returns this error if no client is waiting;
    // then the listener is rearmed, so that a client that is waiting or connects later is reported.
    fn note_refusal(&mut self) {
        self.has_refused = self.has_come;
        if !self.has_come {
            // If rearming fails, a new client is still reported.
            let _ = self
                .registry
                .reregister(&mut self.listener, Token(CONTROL), Interest::READABLE);
        }
    }

    /// Whether the system had no capacity for a waiting client.
    pub fn has_refused(&self) -> bool {
        self.has_refused
    }

    // Makes a stream a client, if its readiness can be reported. The stream is closed otherwise.
    fn take(&mut self, stream: UnixStream, now: u64) {
        let place = self.clients.place();
        let token = Token(FIRST_CLIENT + place);
        let until = now.saturating_add(MAX_ASKING_SECONDS);
        if let Some(client) = ControlClient::new(self.alloc, self.registry, stream, token, until) {
            self.clients.put(place, client);
        }
    }

    /// Reads from each client whose time has ended. If its line is whole, returns its event. Otherwise, drops it. Then
    /// accepts all clients that wait.
    pub fn expire(&mut self, now: u64) -> Option<PollEvent>
        ensures asked { result ≡ Some Asked → IsLine self.new.line.items }
        ensures stop { result ≡ Some Stop → IsStopLine self.new.line.items }
    {
        for place in 0..self.clients.len() {
            if self.clients.is_due(place, now) {
                let told = self.hear(place, now);
                if told.is_some() {
                    return told;
                }
                let _ = self.clients.take(place);
            }
        }
        self.welcome(now);
        None
    }

    /// Reads from the client at a place, and returns an event once its line is whole. This function itself replies to
    /// `stop`. A client that closes before its line is whole is dropped. If a reply is in progress, writes more of it.
    pub fn hear(&mut self, place: usize, now: u64) -> Option<PollEvent>
        ensures asked { result ≡ Some Asked → IsLine self.new.line.items }
        ensures stop { result ≡ Some Stop → IsStopLine self.new.line.items }
    {
        let mut client = self.clients.take(place)?;
        match client.proceed(self.registry) {
            Progress::Asks => Some(self.told_by_line(place, client, now)),
            Progress::Waits => {
                self.clients.put(place, client);
                None
            }
            Progress::Ends => {
                self.let_go(client, now);
                None
            }
        }
    }

    // Returns the event of a client's whole line.
    fn told_by_line(&mut self, place: usize, client: ControlClient, now: u64) -> PollEvent
        ensures line { self.new.line ≡ client.line }
        ensures stop { result ≡ Stop → spec.asks_to_stop client.line.items ≡ true }
    {
        let mut client = client;
        let line = client.take_line();
        if asks_to_stop(line.as_slice()) {
            self.stop(client, now);
            self.line = line;
            return PollEvent::Stop;
        }
        self.line = line;
        self.asker = Some((place, client));
        PollEvent::Asked
    }

    /// Sets the lead in seconds of the wall clock over the time of the container, for the status. It is negative if the
    /// wall clock is slower.
    pub fn note_offset(&mut self, offset: i64) {
        self.offset = offset;
    }

    // Replies that the server stops. The client learns that the server has stopped when the connection closes.
    fn stop(&mut self, client: ControlClient, now: u64) {
        let mut client = client;
        client.say(STOPPING);
        self.stopper = Some(client);
        self.welcome(now);
    }

    /// Replies to the whole line with the figures and the handler, which applies the edit that the line asks for.
    ///
    /// # Errors
    /// The handler's [`StepFault`] for the edit. The client then gets the reply `no memory`.
    pub fn answer_query<R: EventHandler + Queries>(
        &mut self,
        figures: Figures,
        handler: &mut R,
        now: u64,
    ) -> Result<(), StepFault>
        ensures { RepliesAt handler.old R.steps R.explains R.uncovers R.constrains R.stands figures self.old result handler.new }
    {
        let line = mem::replace(&mut self.line, Vec::new(self.alloc));
        match reply(self.alloc, line.as_slice(), figures, self.offset, handler) {
            Ok(text) => {
                self.give(text, now);
                Ok(())
            }
            Err(fault) => {
                self.give(Err(NoMemory), now);
                Err(fault)
            }
        }
    }

    /// Replies to the whole line when the handler takes no more events, with only the figures.
    pub fn tell(&mut self, figures: Figures, now: u64) {
        let line = mem::replace(&mut self.line, Vec::new(self.alloc));
        let text = last_text(self.alloc, line.as_slice(), figures, self.offset);
        self.give(text, now);
    }

    // Sends a reply to the client whose line was whole, or says that memory ran out.
    fn give(&mut self, text: Result<Bytes, NoMemory>, now: u64) {
        let Some((place, client)) = self.asker.take() else {
            return;
        };
        let mut client = client;
        match text {
            Ok(text) => {
                let until = now.saturating_add(MAX_ASKING_SECONDS);
                if client.answer(text, until, self.registry) == Progress::Waits {
                    self.clients.put(place, client);
                } else {
                    self.let_go(client, now);
                }
            }
            Err(_) => {
                client.say(NO_MEMORY);
                self.let_go(client, now);
            }
        }
    }

    // Drops a client. If the system had no capacity for another, it may have some now.
    fn let_go(&mut self, client: ControlClient, now: u64) {
        drop(client);
        self.welcome(now);
    }
}
