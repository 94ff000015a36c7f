//! A stream that is read in parts.

ghost use Rattle.std.specs.Prelude.{◌≡◌, [], Ok, Err, Result};
ghost use Rattle.sv_listening.specs.Parts.{InParts};

use crate::read_buffer::Kept;
use std::marker::Model;
use sv_streams::{ReadFailed, Sink, Source, Stream, WriteFailed};

/// A stream that is read in parts. It keeps the bytes of one read of the stream below. Each read returns those up to
/// the end of the first empty line, and the line ends that follow it.
///
/// So no read returns the ends of many requests, however many a peer sends at once. The responses to one part can be
/// written before the next part is read.
#[derive(Drop)]
pub struct PartStream<S> {
    stream: S,
    kept: Kept,
}

impl<S> Model for PartStream<S> {
    ghost use Rattle.sv_listening.specs.Parts.{InParts};

    ghost Value = { InParts S };

    ghost view = { λ p. record { stream = p.stream; kept = p.kept } };
}

impl<S> PartStream<S> {
    ghost use Rattle.std.specs.Prelude.{◌≡◌, []};

    /// Wraps a stream, to read it in parts.
    pub fn new(stream: S) -> PartStream<S>
        ensures { result ≡ record { stream = stream; kept = [] } }
    {
        PartStream {
            stream,
            kept: Kept::new(),
        }
    }

    /// Returns the stream below, and drops the bytes that are kept.
    pub fn into_stream(self) -> S
        ensures { result ≡ self.stream }
    {
        let PartStream { stream, kept } = self;
        drop(kept);
        stream
    }
}

impl<S: Source> PartStream<S> {
    ghost use Rattle.sv_listening.specs.Parts.{HasCome};

    // Reads once if no bytes are kept.
    fn come(&mut self) -> Result<(), ReadFailed>
        ensures { HasCome S.makes self.old result self.new }
    {
        if self.kept.is_empty() {
            return self.kept.refill(&mut self.stream);
        }
        Ok(())
    }
}

impl<S: Stream> Stream for PartStream<S> {
    ghost use Rattle.sv_listening.specs.Parts.{MakesParts};

    ghost makes = { MakesParts S.makes };
}

impl<S: Source> Source for PartStream<S> {
    fn read(&mut self, buffer: &mut [u8]) -> Result<usize, ReadFailed> {
        match self.come() {
            Ok(()) => Ok(self.kept.give(buffer)),
            Err(failed) => Err(failed),
        }
    }
}

impl<S: Sink> Sink for PartStream<S> {
    fn write(&mut self, bytes: &[u8]) -> Result<usize, WriteFailed> {
        self.stream.write(bytes)
    }
}
