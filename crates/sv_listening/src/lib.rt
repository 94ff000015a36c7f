//! Listeners and sockets for an event handler. They serve the connections of a port, one after another or all at once,
//! record the entries of events in a journal, and write a line for each request to an access log. The crate also makes
//! the seed of a container's random words.
#![tactic(auto)]

mod bounds;
mod control_request;
mod laws;
mod limits;
mod lines;
mod logged_run;
mod own_acceptor;
mod pace;
mod part_len;
mod part_stream;
mod read_buffer;
mod record;
mod recorded_run;
mod recorder;
mod seed;
mod self_request;
mod self_test;
mod serial_server;
mod serve;
mod server;
mod socket_acceptor;
mod socket_stream;
mod sockets;
mod stream_close;
mod time;

pub use bounds::{an_event_sends_little, parts_complete_little, pieces_are_parts};
pub use control_request::{ask_control, converse, refusal_of};
pub use laws::{limits_are_as_stated, parts_are_what_is_read};
pub use limits::{
    MAX_ANSWER_BYTES, MAX_SELF_TEST_ACCEPTS, REPLY_SECONDS, SELF_TEST_SECONDS, SERVE_IDLE_SECONDS,
    STOP_SECONDS,
};
pub use lines::event_lines;
pub use logged_run::{AccessLogOptions, run_journaled, run_logged};
pub use own_acceptor::OwnAcceptor;
pub use part_stream::PartStream;
pub use record::Record;
pub use recorded_run::{run_recorded, what_is_recorded_is_a_run};
pub use recorder::{Alarm, Recorder};
pub use seed::{RANDOM_SOURCE, Seeding, seed_for};
pub use self_request::own_answer;
pub use self_test::{SELF_TEST_REQUEST, ask, first_line};
pub use serial_server::listen_and_serve;
pub use serve::serve_on;
pub use server::{ListenOptions, listen_and_run, run_controlled};
pub use socket_acceptor::SocketAcceptor;
pub use socket_stream::SocketStream;
pub use sockets::fault_of_run;
pub use sv_readiness::LastAccepted;
