//! The signals of this process, read from a descriptor that another program opened (`signalfd(2)` of Linux).

ghost use Rattle.std.specs.Prelude.{◌≡◌, ◌≤◌, true};
ghost use Rattle.sv_readiness.specs.Polling.{HoldsSignal};
ghost use Rattle.sv_readiness.specs.Signals as spec;
ghost use Rattle.sv_readiness.specs.declared.limits.TheConstants.{SIGNAL_BYTES_AT_ONCE};

use crate::calls::try_read;
use crate::control::FIRST_CLIENT;
use crate::limits::SIGNAL_BYTES_AT_ONCE;
use crate::signal_records::ask_to_stop;
use mio::unix::SourceFd;
use mio::{Interest, Registry, Token};
use std::io;
use std::io::Read;
use std::os::fd::RawFd;
use sv_connection::Tried;

/// The token of the descriptor of signals. No connection has this number or a greater one.
pub(crate) const SIGNALS: usize = FIRST_CLIENT - 1;

/// Has a descriptor of signals reported.
///
/// # Errors
/// The system's: the descriptor is not open, or its readiness cannot be reported.
pub(crate) fn register_signals(registry: &Registry, descriptor: RawFd) -> io::Result<()> {
    registry.register(
        &mut SourceFd(&descriptor),
        Token(SIGNALS),
        Interest::READABLE,
    )
}

// A descriptor that this program did not open, and does not close.
#[derive(Drop)]
struct Descriptor(RawFd);

impl Read for Descriptor {
    fn read(&mut self, buffer: &mut [u8]) -> io::Result<usize> {
        let count = libc::read(self.0, buffer);
        if count < 0 {
            return Err(io::Error::from_raw_os_error(os::errno()));
        }
        Ok(count as usize)
    }
}

/// A registered descriptor of signals, and the bytes of its last read. It is left at its end, after an error, and once a
/// stop was reported.
#[derive(Drop)]
pub(crate) struct Signals<'a> {
    registry: &'a Registry,
    descriptor: Descriptor,
    is_left: bool,
    buffer: [u8; SIGNAL_BYTES_AT_ONCE],
    count: usize,
}

impl<'a> Signals<'a> {
    /// Returns the signals of a descriptor that is registered with this registry.
    pub fn new(registry: &'a Registry, descriptor: RawFd) -> Signals<'a> {
        Signals {
            registry,
            descriptor: Descriptor(descriptor),
            is_left: false,
            buffer: [0; SIGNAL_BYTES_AT_ONCE],
            count: 0,
        }
    }

    /// Reads once, after the system reported the descriptor. So the read does not wait, even if the descriptor does.
    /// Returns whether the bytes that were read ask for a stop.
    pub fn hear(&mut self) -> bool
        ensures { result ≡ spec.ask_to_stop (spec.last_read self.new) }
    {
        self.count = self.read();
        ask_to_stop(self.buffer.split_at(self.count).0)
    }

    // Reads once, and returns the number of bytes that were read.
    fn read(&mut self) -> usize
        ensures { result ≤ SIGNAL_BYTES_AT_ONCE }
    {
        if self.is_left {
            return 0;
        }
        match try_read(&mut self.descriptor, &mut self.buffer) {
            Tried::Done(0) | Tried::Failed => {
                self.leave();
                0
            }
            Tried::Done(count) => {
                self.arm();
                count
            }
            Tried::WouldBlock => 0,
        }
    }

    // Arms the descriptor, which also reports signals that arrived before. If arming fails, the descriptor is left.
    fn arm(&mut self) {
        let armed = self.registry.reregister(
            &mut SourceFd(&self.descriptor.0),
            Token(SIGNALS),
            Interest::READABLE,
        );
        if armed.is_err() {
            self.leave();
        }
    }

    /// Ends the reports of the descriptor.
    pub fn leave(&mut self)
        ensures { spec.last_read self.new ≡ spec.last_read self.old }
    {
        self.is_left = true;
        // It is left even if the system still reports it.
        let _ = self.registry.deregister(&mut SourceFd(&self.descriptor.0));
    }
}

/// Returns the signals of a descriptor, if it is given.
pub(crate) fn signals_of(registry: &Registry, descriptor: Option<RawFd>) -> Option<Signals<'_>> {
    match descriptor {
        Some(descriptor) => Some(Signals::new(registry, descriptor)),
        None => None,
    }
}

/// Whether the signals that wait ask for a stop, if there is a descriptor of signals.
pub(crate) fn hear_signals(signals: &mut Option<Signals<'_>>) -> bool
    ensures { result ≡ true → HoldsSignal signals.new }
{
    match signals {
        Some(signals) => signals.hear(),
        None => false,
    }
}

/// Leaves the descriptor of signals, if there is one.
pub(crate) fn leave_signals(signals: &mut Option<Signals<'_>>)
    ensures { HoldsSignal signals.old → HoldsSignal signals.new }
{
    if let Some(signals) = signals {
        signals.leave();
    }
}
