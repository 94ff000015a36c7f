//! Connections over nonblocking sockets: the poller that reports readiness, accepts connections and tracks time.
//! Contracts assume nothing about the data of sockets or the events of the system.
#![tactic(auto)]

mod acceptor;
mod calls;
mod clock_reading;
mod control;
mod control_client;
mod control_clients;
mod control_commands;
mod control_line;
mod control_replies;
mod crowd;
mod drain;
mod gathering;
mod last_accepted;
mod laws;
mod limits;
mod lingering_close;
mod listener;
mod ready;
mod round_clock;
mod signal_records;
mod signals;
mod slewed_clock;
mod sockets;
mod stream_peer;

pub use gathering::GatheringWrite;
pub use last_accepted::LastAccepted;
pub use laws::{
    a_short_read_asks_for_nothing, a_stop_has_a_record, limits_are_as_stated,
    time_comes_to_the_wall_clock, time_follows_the_wall_clock, time_keeps_pace,
    time_never_goes_back,
};
pub use limits::{
    DROPPED_READ_BYTES, EVENTS_AT_ONCE, LINGER_SECONDS, MAX_ASKING_SECONDS, MAX_CONTROL_CLIENTS,
    MAX_DROPPED_BYTES, MAX_DROPPED_READS, MAX_LINE_BYTES, MAX_LINGERING, MAX_READY_BEFORE_ACCEPT,
    MAX_READY_BEFORE_READING, MAX_SENT_AT_ONCE, SIGNAL_BYTES_AT_ONCE, SLEW_DIVISOR,
};
pub use listener::Listening;
pub use round_clock::RoundClock;
pub use slewed_clock::{Reading, SlewedClock};
pub use sockets::Sockets;
pub use stream_peer::StreamPeer;
