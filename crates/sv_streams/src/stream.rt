//! Streams that are read and written.

ghost use Rattle.std.specs.Prelude.{IfOk, length, ◌<◌, ◌≡◌, ◌≤◌};
ghost use Rattle.sv_streams.specs.Calls.{Call, WritesAll, read_call, write_call};

/// A read that gave nothing because it failed.
#[derive(Clone, Copy, Debug, PartialEq, Eq)]
pub struct ReadFailed;

/// A write that took nothing because it failed.
#[derive(Clone, Copy, Debug, PartialEq, Eq)]
pub struct WriteFailed;

/// A stream that is read, written, or both. Contracts list the calls that were made (`AreMade`). The bytes given and
/// taken and the numbers of reads and of failed calls follow from this list.
pub trait Stream {
    /// The model of a call: the stream before it, the call, and the stream after it. By default a call may do anything.
    ghost makes: { Self → Call → Self → Type 0 } = { λ _ _ _. Unit {0} };
}

/// A stream that bytes are read from.
pub trait Source: Stream {
    /// Reads into a buffer that is not empty. Returns the number of bytes read to its front, which is 0 only at the
    /// end.
    ///
    /// # Errors
    /// The read failed, and gave nothing.
    fn read(&mut self, buffer: &mut [u8]) -> Result<usize, ReadFailed>
        requires { 0 < length buffer.old }
        ensures within { IfOk result (λ count. count ≤ length buffer.new) }
        ensures made { Self.makes self.old (read_call result buffer.new) self.new };
}

/// A stream that bytes are written to.
pub trait Sink: Stream {
    /// Writes bytes, which must not be empty. Returns how many were taken from their front, at least one.
    ///
    /// # Errors
    /// The write failed, and took nothing.
    fn write(&mut self, bytes: &[u8]) -> Result<usize, WriteFailed>
        requires { 0 < length bytes.now }
        ensures within { IfOk result (λ count. (0 < count) × (count ≤ length bytes.now)) }
        ensures made { Self.makes self.old (write_call result bytes.now) self.new };
}

/// Writes all of the bytes, in as many writes as the sink needs. Empty bytes need none.
///
/// # Errors
/// A write failed, and no other write follows it. The sink has taken a front of the bytes.
pub fn write_all<W: Sink>(sink: &mut W, bytes: &[u8]) -> Result<(), WriteFailed>
    ensures { WritesAll W.makes bytes.now sink.old result sink.new }
{
    let mut rest = bytes;
    while !rest.is_empty() {
        match sink.write(rest) {
            Ok(count) => rest = rest.split_at(count).1,
            Err(failed) => return Err(failed),
        }
    }
    Ok(())
}
