//! Queries on the response so far.

ghost use Rattle.std.specs.Prelude.{◌≡◌};

use crate::exchange::Exchange;
use sv_message::Field;

impl Exchange {
    ghost use Rattle.sv_exchange.specs.Answered.{written_len};

    /// Returns the status of the response so far (Jakarta Servlet 6.0, chapter 5).
    pub fn status(&self) -> u16
        ensures { result ≡ self.now.status }
    {
        self.status
    }

    /// Returns the fields of the response so far, in the order of their lines (Jakarta Servlet 6.0, section 5.2). Their
    /// names are in lower case. The fields that only the server writes are not included, and neither is the session
    /// cookie.
    pub fn fields(&self) -> &[Field]
        ensures { result.now ≡ self.now.fields }
    {
        self.fields.as_slice()
    }

    /// Returns the number of bytes of the body written so far, flushed or not, but at most the maximum `usize` (Jakarta
    /// Servlet 6.0, section 5.1).
    pub fn written(&self) -> usize
        ensures { result ≡ written_len self.now }
    {
        self.flushed.total().saturating_add(self.buffer.len())
    }
}
