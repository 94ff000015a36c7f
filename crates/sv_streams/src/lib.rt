//! Readers, writers and clocks as the container needs them. Contracts state the effect of each call, and the loops that
//! call them are the product's own.
#![tactic(auto)]

mod ahead;
mod clock;
mod line_reader;
mod lines_fault;
mod memory_stream;
mod standard;
mod stream;

pub use clock::{Clock, SystemClock};
pub use line_reader::{LineReader, MAX_READS};
pub use lines_fault::LinesFault;
pub use memory_stream::MemoryStream;
pub use standard::{ReadSource, ReadWriteStream, WriteSink};
pub use stream::{ReadFailed, Sink, Source, Stream, WriteFailed, write_all};
