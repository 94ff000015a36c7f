//! The poller of a listener and its connections.

ghost use Rattle.std.specs.Prelude.{◌≡◌, ◌≢◌, ◌≤◌, Some};
ghost use Rattle.sv_connection.specs.declared.poller.PollEvent.TheVariants.{Asked, Stop};
ghost use Rattle.sv_readiness.specs.Polling.{HoldsLine, HoldsStop, IsStopped, RepliesIfAny};
ghost use Rattle.sv_readiness.specs.declared.control.TheConstants.{FIRST_CLIENT};

use crate::acceptor::Acceptor;
use crate::clock_reading::read_clocks;
use crate::control::{CONTROL, Control, FIRST_CLIENT};
use crate::last_accepted::LastAccepted;
use crate::limits::{EVENTS_AT_ONCE, MAX_READY_BEFORE_ACCEPT, MAX_READY_BEFORE_READING};
use crate::lingering_close::Lingering;
use crate::listener::{LISTENER, Listening};
use crate::ready::Ready;
use crate::signals::{SIGNALS, Signals, hear_signals, leave_signals, signals_of};
use crate::slewed_clock::{Reading, SlewedClock};
use crate::stream_peer::StreamPeer;
use mio::event::Source;
use mio::net::{TcpStream, UnixListener};
use mio::{Events, Poll, Registry, Token};
use std::alloc::{AllocError, Global};
use std::cell::Cell;
use std::io;
use std::net::Shutdown;
use std::time::{Clock, Duration};
use sv_connection::{Closing, Figures, PollEvent, Poller, Queries};
use sv_run::{EventHandler, StepFault};

/// A listener and its connections. A system error for one of them ends only that connection, or is retried within a
/// second.
#[derive(Drop)]
pub struct Sockets<'a, C> {
    clock: &'a C,
    registry: &'a Registry,
    poll: Poll,
    acceptor: Acceptor<'a>,
    events: Events,
    ready: Ready,
    lingering: Lingering<TcpStream>,
    control: Option<Control<'a>>,
    signals: Option<Signals<'a>>,
    // The time of the container, and its cached second, which timestamps events.
    slewed: SlewedClock,
    moment: &'a Cell<u64>,
    // The monotonic second that was read last; the last second that was reported; and the time that was left of the
    // current one.
    now: u64,
    second: u64,
    rest: Duration,
    told: u32,
    // The accepted connection that is reported as ready next.
    accepted: Option<u64>,
    has_reported: bool,
    has_failed: bool,
}

impl<'a, C: Clock> Sockets<'a, C> {
    /// Returns the poller of a listener and its registry, with the time of a clock. Each time the clock is read, the
    /// cell `moment` is set to the time of the container in seconds since 1970. That is a [`SlewedClock`], which begins
    /// at the wall clock. While the wall clock or the boot time cannot be read, its previous value is kept. The address of
    /// each accepted client is noted in `last`.
    ///
    /// # Errors
    /// Memory ran out.
    pub fn new(
        alloc: Global,
        clock: &'a C,
        registry: &'a Registry,
        listening: Listening,
        moment: &'a Cell<u64>,
        last: &'a LastAccepted,
    ) -> Result<Sockets<'a, C>, AllocError> {
        let Listening {
            poll,
            listener,
            control,
            signals,
        } = listening;
        let events = Events::with_capacity(alloc, EVENTS_AT_ONCE)?;
        Ok(Sockets {
            clock,
            registry,
            poll,
            acceptor: Acceptor::new(registry, listener, last),
            events,
            ready: Ready::new(),
            lingering: Lingering::new(alloc),
            control: control_of(alloc, registry, control),
            signals: signals_of(registry, signals),
            slewed: SlewedClock::new(read_clocks(clock, Reading { boot: 0, wall: 0 })),
            moment,
            now: 0,
            second: 0,
            rest: Duration::ZERO,
            told: 0,
            accepted: None,
            has_reported: false,
            has_failed: false,
        })
    }

    /// Whether the system failed to report events.
    pub fn has_failed(&self) -> bool {
        self.has_failed
    }

    /// Runs lingering close to its end: reads and drops input of closed connections until none can send more or the
    /// time of each has expired. So the end of the process does not truncate their responses.
    pub fn read_out(&mut self) {
        for _ in 0..u64::MAX {
            if self.lingering.is_empty() || self.wait() == PollEvent::Stop {
                return;
            }
        }
    }

    // Returns the event of a token, if any. A stream in lingering close, a control client without a whole line and signals
    // that ask for no stop have none.
    fn told_of(&mut self, token: usize) -> Option<PollEvent>
        ensures asked { result ≡ Some Asked → HoldsLine self.new.control }
        ensures stop { result ≡ Some Stop → IsStopped self.new.has_failed self.new.control self.new.signals }
    {
        if token == SIGNALS {
            return self.told_by_signals();
        }
        if token >= FIRST_CLIENT && token != LISTENER {
            return self.heard_at(token);
        }
        if self.lingers(token) {
            return None;
        }
        if token == LISTENER {
            self.acceptor.note_report();
        }
        self.told = self.told.saturating_add(1);
        if self.told % MAX_READY_BEFORE_READING == 0 {
            self.read_time();
        }
        Some(told_by(token))
    }

    // Returns the event of the signals that wait, if any.
    fn told_by_signals(&mut self) -> Option<PollEvent>
        ensures asked { result ≢ Some Asked }
        ensures stop { result ≡ Some Stop → IsStopped self.new.has_failed self.new.control self.new.signals }
    {
        if hear_signals(&mut self.signals) {
            Some(PollEvent::Stop)
        } else {
            None
        }
    }

    // Returns the event of the control socket, if any.
    fn heard_at(&mut self, token: usize) -> Option<PollEvent>
        requires { FIRST_CLIENT ≤ token }
        ensures asked { result ≡ Some Asked → HoldsLine self.new.control }
        ensures stop { result ≡ Some Stop → HoldsStop self.new.control }
    {
        let now = self.seconds();
        let Some(control) = &mut self.control else {
            return None;
        };
        if token == CONTROL {
            control.welcome_told(now);
            return None;
        }
        control.hear(token - FIRST_CLIENT, now)
    }

    // Closes expired streams and expired control clients. These are read first; if a line is whole, returns its event
    // instead.
    fn expire(&mut self) -> Option<PollEvent>
        ensures asked { result ≡ Some Asked → HoldsLine self.new.control }
        ensures stop { result ≡ Some Stop → HoldsStop self.new.control }
    {
        self.lingering.expire(self.second);
        match &mut self.control {
            Some(control) => control.expire(self.second),
            None => None,
        }
    }

    // Whether to report that a client may be waiting: after [`MAX_READY_BEFORE_ACCEPT`] ready connections, or, if an
    // unreported client may be waiting, after all events of the report.
    fn is_turn_to_accept(&self) -> bool {
        let has_told_all = self.has_reported && !self.ready.has_next();
        self.told >= MAX_READY_BEFORE_ACCEPT || (self.acceptor.may_come() && has_told_all)
    }

    // Waits for events, at most until the last second read ends. Does not wait if a client may be waiting.
    fn report(&mut self) -> io::Result<()> {
        let rest = if self.acceptor.may_come() {
            Duration::ZERO
        } else {
            self.rest
        };
        self.poll.poll(&mut self.events, Some(rest))?;
        self.has_reported = true;
        self.told = 0;
        self.ready.refill(&self.events);
        Ok(())
    }

    // Called when no event is left. Polls once and reads the clock once. Returns `Stop` if polling fails. If a second
    // has passed, returns the event of the control socket, and otherwise `Second`. Returns no event if the second has
    // not passed; the caller then delivers the events that were polled.
    fn report_next(&mut self) -> Option<PollEvent>
        ensures asked { result ≡ Some Asked → HoldsLine self.new.control }
        ensures stop { result ≡ Some Stop → IsStopped self.new.has_failed self.new.control self.new.signals }
    {
        if self.report().is_err() {
            self.has_failed = true;
            return Some(PollEvent::Stop);
        }
        if self.has_second_passed() {
            return self.expire().or(Some(PollEvent::Second));
        }
        None
    }

    // Whether a token belongs to a stream in lingering close, which is then read on.
    fn lingers(&mut self, token: usize) -> bool {
        token != LISTENER && self.lingering.read_on(token as u64, self.registry)
    }

    // Whether the second differs from the last one that was reported.
    fn has_second_passed(&mut self) -> bool {
        self.read_time();
        let has_passed = self.now != self.second;
        if has_passed {
            self.acceptor.note_second();
        }
        self.second = self.now;
        has_passed
    }

    // Reads the time. Events are served at this time until it is read again.
    fn read_time(&mut self) {
        self.now = self.read_clock();
        self.slewed
            .advance(read_clocks(self.clock, self.slewed.reading()));
        self.moment.set(self.slewed.seconds());
        if let Some(control) = &mut self.control {
            control.note_offset(self.slewed.offset());
        }
    }

    // Returns the second of the monotonic clock and notes how long it lasts. If the clock fails, returns the previous
    // second.
    fn read_clock(&mut self) -> u64 {
        match self.clock.monotonic() {
            Ok(time) => {
                self.rest = rest_of_second(time);
                time.as_secs()
            }
            Err(_) => {
                self.rest = Duration::from_secs(1);
                self.now
            }
        }
    }

    // Whether to report that the system has no capacity for a waiting client. After that report, all waiting clients
    // are looked for again, those of the control socket first.
    fn tells_crowd(&mut self) -> bool {
        if self.acceptor.tells_crowd() {
            return true;
        }
        if self.acceptor.is_making_room() {
            self.acceptor.take_anew();
            self.welcome();
        }
        false
    }

    // Accepts the clients of the control socket that wait.
    fn welcome(&mut self) {
        let now = self.seconds();
        if let Some(control) = &mut self.control {
            control.welcome(now);
        }
    }

    // Notes if the system had no capacity for a client of the control socket.
    fn note_refused_asker(&mut self) {
        if let Some(control) = &self.control
            && control.has_refused()
        {
            self.acceptor.note_crowd();
        }
    }

    // Returns the peer of an accepted connection. The next wait reports it as ready. If another accept may come first,
    // its readiness is reported by the system instead. The last numbers are tokens of the listener, the control socket and
    // the signals, so no connection gets them.
    fn peer_of(&mut self, stream: TcpStream, number: u64) -> Option<StreamPeer<'a, TcpStream>>
        ensures { self.new.control ≡ self.old.control }
    {
        let token = Token(number as usize);
        if token.0 >= SIGNALS {
            return None;
        }
        let mut peer = StreamPeer::new(stream, self.registry, token);
        if !self.acceptor.is_tried() {
            self.accepted = Some(number);
        } else if !peer.arm_for_reading() {
            return None;
        }
        Some(peer)
    }

    // Waits for the next event.
    fn next_told(&mut self) -> PollEvent
        ensures asked { result ≡ Asked → HoldsLine self.new.control }
        ensures stop { result ≡ Stop → IsStopped self.new.has_failed self.new.control self.new.signals }
    {
        self.note_refused_asker();
        if self.tells_crowd() {
            return PollEvent::Crowded;
        }
        for _ in 0..u64::MAX {
            if self.is_turn_to_accept() {
                self.told = 0;
                self.has_reported = false;
                return PollEvent::Incoming;
            }
            match self.ready.next() {
                Some(token) => {
                    if let Some(told) = self.told_of(token) {
                        return told;
                    }
                }
                None => {
                    if let Some(told) = self.report_next() {
                        return told;
                    }
                }
            }
        }
        self.has_failed = true;
        PollEvent::Stop
    }
}

impl<'a, C: Clock> Poller for Sockets<'a, C> {
    ghost use Rattle.sv_readiness.specs.Polling.{Polls};

    type Peer = StreamPeer<'a, TcpStream>;

    ghost polls = { λ before call after. Polls before.control call after.control after.has_failed after.signals };

    fn wait(&mut self) -> PollEvent {
        let told = match self.accepted.take() {
            Some(number) => PollEvent::Ready(number),
            None => self.next_told(),
        };
        self.acceptor
            .note_told(matches!(told, PollEvent::Incoming | PollEvent::Second));
        // Further signals change nothing, so the output that waits is still sent.
        if told == PollEvent::Stop {
            leave_signals(&mut self.signals);
        }
        told
    }

    fn accept(&mut self, number: u64) -> Option<StreamPeer<'a, TcpStream>> {
        let stream = self.acceptor.accept(self.ready.is_single())?;
        self.peer_of(stream, number)
    }

    fn close(&mut self, number: u64, peer: StreamPeer<'a, TcpStream>, closing: Closing) {
        let mut peer = peer;
        // Dropping the stream closes it. A connection that makes room is closed at once. A peer that is gone is sent
        // no end.
        let lingers = may_send_on(closing, &peer)
            && !self.acceptor.is_making_room()
            && peer.arm_for_reading();
        let stream = peer.into_stream();
        if lingers && stream.shutdown(Shutdown::Write).is_ok() {
            let now = self.seconds();
            self.lingering.take(number, stream, now, self.registry);
        }
    }

    fn answer_query<R: EventHandler + Queries>(
        &mut self,
        figures: Figures,
        handler: &mut R,
    ) -> Result<(), StepFault> {
        let now = self.seconds();
        answer_line(&mut self.control, figures, handler, now)
    }

    fn answer_status(&mut self, figures: Figures) {
        let now = self.seconds();
        if let Some(control) = &mut self.control {
            control.tell(figures, now);
        }
    }

    // Returns the second that was read last. It is current: the clock is read after each wait and after every
    // `MAX_READY_BEFORE_READING` events.
    fn seconds(&self) -> u64 {
        self.now
    }
}

// Returns the control socket, if its listener is given.
fn control_of(
    alloc: Global,
    registry: &Registry,
    listener: Option<UnixListener>,
) -> Option<Control<'_>> {
    match listener {
        Some(listener) => Some(Control::new(alloc, registry, listener)),
        None => None,
    }
}

// Replies to the line that the control socket holds, if there is a control socket.
fn answer_line<R: EventHandler + Queries>(
    control: &mut Option<Control<'_>>,
    figures: Figures,
    handler: &mut R,
    now: u64,
) -> Result<(), StepFault>
    ensures { RepliesIfAny handler.old R.steps R.explains R.uncovers R.constrains R.stands figures control.old result handler.new }
{
    match control {
        Some(control) => control.answer_query(figures, handler, now),
        None => Ok(()),
    }
}

// Whether the peer of a connection with this way of closing may send more, which lingering close then drops.
fn may_send_on<T: Source>(closing: Closing, peer: &StreamPeer<'_, T>) -> bool {
    match closing {
        Closing::AtOnce => false,
        Closing::Answered => !peer.is_settled(),
        Closing::InStages => true,
    }
}

// Returns the time from then until the end of the second.
fn rest_of_second(time: Duration) -> Duration {
    Duration::from_millis(1000_u64.saturating_sub(u64::from(time.subsec_millis())))
}

// Returns the event of a token: a connection may be ready, or a client may be waiting.
fn told_by(token: usize) -> PollEvent
    ensures asked { result ≢ Asked }
    ensures stop { result ≢ Stop }
{
    if token == LISTENER {
        return PollEvent::Incoming;
    }
    PollEvent::Ready(token as u64)
}
