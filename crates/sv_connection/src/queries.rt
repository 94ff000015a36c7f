//! The control interface of an event handler.

ghost use Rattle.std.specs.Option.{option_copied};
ghost use Rattle.sv_text.specs.Gives.{GivesAnswer};

use std::alloc::Global;
use sv_text::{Bytes, NoMemory};

/// The control interface of an event handler. A query is no event.
pub trait Queries {
    ghost use Rattle.sv_connection.specs.Asking.{Explaining, Saying};

    /// The text that explains a request, if any.
    ghost explains: { Explaining Self };

    /// The text about uncovered methods, if any.
    ghost uncovers: { Saying Self };

    /// The text about the constraints in force, if any.
    ghost constrains: { Saying Self };

    /// The text about the handler's status, if any.
    ghost stands: { Saying Self };

    /// Explains what would become of a request with this method and target, from the named user or without a caller.
    /// The text is a line with its end. Returns none if this handler does not know. Nothing changes.
    ///
    /// # Errors
    /// Memory ran out.
    fn explain(
        &self,
        alloc: Global,
        method: &str,
        target: &[u8],
        user: Option<&str>,
    ) -> Result<Option<Bytes>, NoMemory>
        ensures { GivesAnswer result (explains self.now method.now target.now (option_copied user.entry)) };

    /// Lists the methods that the constraints leave uncovered, as lines with their ends. The text is empty if there are
    /// no such methods. Returns none if this handler does not know. Nothing changes.
    ///
    /// # Errors
    /// Memory ran out.
    fn uncovered(&self, alloc: Global) -> Result<Option<Bytes>, NoMemory>
        ensures { GivesAnswer result (uncovers self.now) };

    /// Lists the constraints in force, as lines with their ends. The text is empty if there are none. Returns none if
    /// this handler does not know. Nothing changes.
    ///
    /// # Errors
    /// Memory ran out.
    fn constraints(&self, alloc: Global) -> Result<Option<Bytes>, NoMemory>
        ensures { GivesAnswer result (constrains self.now) };

    /// Describes the handler's status, as words that continue a line, each after a space. Returns none if this handler
    /// does not know. Nothing changes.
    ///
    /// # Errors
    /// Memory ran out.
    fn standing(&self, alloc: Global) -> Result<Option<Bytes>, NoMemory>
        ensures { GivesAnswer result (stands self.now) };
}

/// Figures of the connections, for status queries.
#[derive(Clone, Copy, Debug, PartialEq, Eq)]
pub struct Figures {
    /// The number of open connections.
    pub connections: usize,
    /// The number of open connections that have bytes to write.
    pub writing: usize,
    /// The number of bytes that all of them hold: bytes of messages without a response, and bytes that wait to be
    /// written.
    pub held: u64,
    /// The number of connections accepted since the start, including those that have ended.
    pub opened: u64,
}
