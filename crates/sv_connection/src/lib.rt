//! Connections over any event handler. `run_connection` serves one connection, `serve_connections` accepts and serves
//! one after another, and `run_event_loop` serves many at once.
#![tactic(auto)]

mod acceptor;
mod allowance;
mod close_reason;
mod connection;
mod connection_service;
mod connection_table;
mod event_loop;
mod laws;
mod limits;
mod loop_end;
mod loop_laws;
mod open_connection;
mod over;
mod peer;
mod pending_bytes;
mod phase;
mod pieces;
mod poller;
mod queries;
mod serial_loop;
mod step;
mod timeouts;
mod turn;
mod unsent_bytes;
mod without_queries;

pub use acceptor::{AcceptFailed, Acceptor};
pub use close_reason::{CloseReason, Closing};
pub use connection::run_connection;
pub use event_loop::{LoopEnd, run_event_loop};
pub use laws::{
    a_connection_is_a_run, only_pieces_send, pieces_are_what_is_read, the_end_has_a_cause,
    what_is_sent_is_written,
};
pub use limits::{
    ACCEPTED_AT_ONCE, BYTES_A_PIECE, BYTES_A_WINDOW, BYTES_AT_ONCE, CALLS_AT_ONCE, FINISH_SECONDS,
    FIRST_READ_BYTES, Limits, MAX_HELD_BYTES, MAX_IDLE_SECONDS, MAX_UNDER_WAY, READ_BYTES,
    WINDOW_SECONDS,
};
pub use loop_laws::{
    an_event_loop_is_a_run, bytes_are_kept, each_is_served_as_if_alone, ends_have_a_cause,
    limits_are_as_stated, numbers_are_not_used_again, rest_is_for_something, rounds_are_one,
    what_is_done_is_events,
};
pub use over::Over;
pub use peer::{Peer, Tried};
pub use poller::{PollEvent, Poller};
pub use queries::{Figures, Queries};
pub use serial_loop::serve_connections;
pub use without_queries::WithoutQueries;
