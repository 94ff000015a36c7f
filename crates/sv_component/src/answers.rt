//! Results of component calls.

use sv_text::Text;

/// The result of `init` (Jakarta Servlet 6.0, sections 2.3.2 and 6.2.1).
#[derive(Clone, Copy, Debug, PartialEq, Eq)]
pub enum Init {
    /// The component can be called.
    Ready,
    /// The servlet is not in service, and is not destroyed either. For a filter this is a failure.
    Unavailable,
    /// The context does not start.
    Failed,
    /// Memory ran out. The context does not start.
    NoMemory,
}

/// The result of `service` (Jakarta Servlet 6.0, section 2.3.3 and chapter 9).
#[derive(Debug, Drop)]
pub enum Step {
    /// The servlet is done.
    Done,
    /// Another servlet or file answers instead: a path in the context, with a query.
    Forward(Text),
    /// Another servlet or file writes here, and then this servlet is called for its next turn: a path in the context,
    /// with a query.
    Include(Text),
    /// The response is an error: its code and its text. A code outside 400 to 599 counts as 500.
    Error(u16, Text),
    /// The servlet failed: the kind of the failure, which selects an error page, and its text.
    Failed(Text, Text),
    /// The servlet is unavailable for this many seconds, or for good.
    Unavailable(Option<u32>),
    /// Memory ran out.
    NoMemory,
}

/// The result of `before` (Jakarta Servlet 6.0, chapter 6).
#[derive(Debug, Drop)]
pub enum Gate {
    /// The rest of the chain is called.
    Pass,
    /// The rest of the chain is not called, since the filter has answered.
    Stop,
    /// The filter failed: the kind of the failure, which selects an error page, and its text.
    Failed(Text, Text),
    /// Memory ran out.
    NoMemory,
}
