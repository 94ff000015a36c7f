//! Small types that contracts see as lists, cutting texts from streams, and the form of results "unless memory ran
//! out".
#![tactic(auto)]

mod bytes;
mod front;
mod listed;
mod no_memory;
mod text;

pub use bytes::Bytes;
pub use front::{Cut, Delimited, cut_front};
pub use listed::Listed;
pub use no_memory::NoMemory;
pub use text::{Text, copied_texts};
