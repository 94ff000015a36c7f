//! The access log: the lines of the messages that a container answered, and an event handler that writes them.
#![tactic(auto)]

mod access_log;
mod access_source;
mod circumstances;
mod combined;
mod dates;
mod escaping;
mod event_lines;
mod json_lines;
mod laws;
mod log_writer;
mod timing;

pub use access_log::{AccessLog, Addresses};
pub use access_source::AccessSource;
pub use circumstances::{Circumstances, LogFormat, push_line};
pub use laws::{combined_lines_are_whole, json_lines_are_whole};
pub use log_writer::{LogWriter, LossAlarm};
pub use timing::{MicroClock, MonotonicClock};
