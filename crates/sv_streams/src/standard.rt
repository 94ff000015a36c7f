//! Readers and writers of the standard library as sources and sinks.

ghost use Rattle.std.specs.Prelude.{◌≡◌, ◌<◌, ◌≤◌, length, IfOk};
ghost use Rattle.std.specs.Io.KnownBytes.{ReadConsumes, WriteAppends};
ghost use Rattle.sv_streams.specs.Standard.{IsCallOf, IsReadOf, IsWriteTo};

use crate::stream::{ReadFailed, Sink, Source, Stream, WriteFailed};
use std::io::{ErrorKind, Read, Write};

/// A reader of the standard library as a source. An interrupted read is repeated.
#[derive(Drop)]
pub struct ReadSource<R> {
    reader: R,
}

impl<R: Read> ReadSource<R> {
    /// Creates a source that reads from this reader.
    pub fn new(reader: R) -> ReadSource<R>
        ensures { result.reader ≡ reader }
    {
        ReadSource { reader }
    }
}

impl<R: Read> Stream for ReadSource<R> {
    ghost makes = { λ before call after. IsReadOf (R.remaining before.reader) call (R.remaining after.reader) };
}

impl<R: Read> Source for ReadSource<R> {
    fn read(&mut self, buffer: &mut [u8]) -> Result<usize, ReadFailed> {
        read_some(&mut self.reader, buffer)
    }
}

/// A writer of the standard library as a sink. It is never flushed, so the writer must forward what it takes. An
/// interrupted write is repeated, and a write that takes nothing fails.
#[derive(Drop)]
pub struct WriteSink<W> {
    writer: W,
}

impl<W: Write> WriteSink<W> {
    /// Creates a sink that writes to this writer.
    pub fn new(writer: W) -> WriteSink<W>
        ensures { result.writer ≡ writer }
    {
        WriteSink { writer }
    }
}

impl<W: Write> Stream for WriteSink<W> {
    ghost makes = { λ before call after. IsWriteTo (W.contents before.writer) call (W.contents after.writer) };
}

impl<W: Write> Sink for WriteSink<W> {
    fn write(&mut self, bytes: &[u8]) -> Result<usize, WriteFailed> {
        write_some(&mut self.writer, bytes)
    }
}

/// A stream of the standard library that is both a reader and a writer, such as a socket, as a source and a sink.
#[derive(Drop)]
pub struct ReadWriteStream<T> {
    stream: T,
}

impl<T: Read + Write> ReadWriteStream<T> {
    /// Creates a source and sink that uses this stream.
    pub fn new(stream: T) -> ReadWriteStream<T>
        ensures { result.stream ≡ stream }
    {
        ReadWriteStream { stream }
    }
}

impl<T: Read + Write> Stream for ReadWriteStream<T> {
    ghost makes = { λ before call after. IsCallOf (T.remaining before.stream) (T.contents before.stream) call (T.remaining after.stream) (T.contents after.stream) };
}

impl<T: Read + Write> Source for ReadWriteStream<T> {
    fn read(&mut self, buffer: &mut [u8]) -> Result<usize, ReadFailed> {
        read_some(&mut self.stream, buffer)
    }
}

impl<T: Read + Write> Sink for ReadWriteStream<T> {
    fn write(&mut self, bytes: &[u8]) -> Result<usize, WriteFailed> {
        write_some(&mut self.stream, bytes)
    }
}

fn read_some<R: Read>(reader: &mut R, buffer: &mut [u8]) -> Result<usize, ReadFailed>
    ensures within { IfOk result (λ count. count ≤ length buffer.new) }
    ensures bytes { ReadConsumes (R.remaining reader.old) (R.remaining reader.new) result buffer.new }
{
    for _ in 0..u64::MAX {
        match reader.read(buffer) {
            Ok(count) => return Ok(count),
            Err(error) if error.kind() == ErrorKind::Interrupted => {}
            Err(_) => return Err(ReadFailed),
        }
    }
    Err(ReadFailed)
}

fn write_some<W: Write>(writer: &mut W, bytes: &[u8]) -> Result<usize, WriteFailed>
    ensures within { IfOk result (λ count. (0 < count) × (count ≤ length bytes.now)) }
    ensures bytes { WriteAppends (W.contents writer.old) (W.contents writer.new) result bytes.now }
{
    for _ in 0..u64::MAX {
        match writer.write(bytes) {
            Ok(0) => return Err(WriteFailed),
            Ok(count) => return Ok(count),
            Err(error) if error.kind() == ErrorKind::Interrupted => {}
            Err(_) => return Err(WriteFailed),
        }
    }
    Err(WriteFailed)
}
