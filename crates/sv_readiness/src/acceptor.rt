//! A nonblocking listener that accepts connections.

use crate::crowd::{Crowd, lacks_room};
use crate::last_accepted::LastAccepted;
use crate::listener::LISTENER;
use mio::net::{TcpListener, TcpStream};
use mio::{Interest, Registry, Token};
use std::io::ErrorKind;

/// A listener, the state of its waiting clients, and whether the system has capacity for them.
#[derive(Drop)]
pub(crate) struct Acceptor<'a> {
    registry: &'a Registry,
    listener: TcpListener,
    last: &'a LastAccepted,
    crowd: Crowd,
    // Whether an accept is tried; whether an unreported client may be waiting; and whether the listener was reported
    // and no client was accepted since.
    is_tried: bool,
    may_come: bool,
    has_come: bool,
}

impl<'a> Acceptor<'a> {
    /// Returns the acceptor of a listener that is registered with this registry, which notes the address of each client.
    /// No client has connected yet.
    pub fn new(
        registry: &'a Registry,
        listener: TcpListener,
        last: &'a LastAccepted,
    ) -> Acceptor<'a> {
        Acceptor {
            registry,
            listener,
            last,
            crowd: Crowd::None,
            is_tried: false,
            may_come: false,
            has_come: false,
        }
    }

    /// Whether an unreported client may be waiting.
    pub fn may_come(&self) -> bool {
        self.may_come
    }

    /// Whether another accept is tried before the next event is reported.
    pub fn is_tried(&self) -> bool {
        self.is_tried
    }

    /// Notes that the system reported the listener.
    pub fn note_report(&mut self) {
        self.has_come = true;
    }

    /// Notes whether the event reported to the caller says that a client may be waiting. An accept is tried only after
    /// such an event.
    pub fn note_told(&mut self, is_told: bool) {
        self.is_tried = is_told;
        self.may_come = self.may_come && !is_told;
    }

    /// Returns the stream of a waiting client, if an accept is tried and finds one. `was_alone` says whether the
    /// listener was the only source in its report.
    pub fn accept(&mut self, was_alone: bool) -> Option<TcpStream> {
        if !self.is_tried {
            return None;
        }
        self.is_tried = false;
        self.may_come = false;
        for _ in 0..u64::MAX {
            match self.listener.accept() {
                Ok((stream, address)) => {
                    self.last.note(address);
                    self.has_come = false;
                    self.crowd = Crowd::None;
                    self.look_for_next(was_alone);
                    return Some(stream);
                }
                Err(error) if is_passing(error.kind()) => {}
                Err(error) if lacks_room(&error) => {
                    self.note_refusal();
                    return None;
                }
                Err(_) => {
                    self.has_come = false;
                    return None;
                }
            }
        }
        None
    }

    // Called after an accept. If the listener was the only source in its report, rearming it has the next waiting
    // client reported. An accept that finds no client takes as long as ten such calls. So one is tried only if other
    // sources were reported, which share its cost, or if rearming fails.
    fn look_for_next(&mut self, was_alone: bool) {
        self.is_tried = !(was_alone && self.asks_anew());
        self.may_come = self.is_tried;
    }

    // Rearms the listener, which also reports clients that connected before. Returns whether that succeeded.
    fn asks_anew(&mut self) -> bool {
        self.registry
            .reregister(&mut self.listener, Token(LISTENER), Interest::READABLE)
            .is_ok()
    }

    // Notes that the system has no capacity for another connection. Linux also returns this error if no client is
    // waiting; then the listener is rearmed, so that a client that is waiting or connects later is reported.
    fn note_refusal(&mut self) {
        if self.has_come {
            self.note_crowd();
            return;
        }
        // If rearming fails, a new client is still reported, and a waiting client is looked for once per second.
        self.asks_anew();
    }

    /// Notes that the system has no capacity for a waiting client.
    pub fn note_crowd(&mut self) {
        self.crowd = self.crowd.refused();
    }

    /// Called once per second.
    pub fn note_second(&mut self) {
        self.crowd = self.crowd.second();
    }

    /// Whether to report that the system has no capacity for a waiting client. It is reported once.
    pub fn tells_crowd(&mut self) -> bool {
        let is_found = self.crowd == Crowd::Found;
        if is_found {
            self.crowd = Crowd::Told;
        }
        is_found
    }

    /// Whether that was the last such report, so that a connection is being closed to make room.
    pub fn is_making_room(&self) -> bool {
        self.crowd == Crowd::Told
    }

    /// Looks again for all waiting clients, after a connection was closed to make room.
    pub fn take_anew(&mut self) {
        self.crowd = Crowd::Past;
        self.may_come = true;
    }
}

// Whether another accept may return a connection.
fn is_passing(kind: ErrorKind) -> bool {
    matches!(kind, ErrorKind::Interrupted | ErrorKind::ConnectionAborted)
}
