//! The outcome of a container's run.

/// The outcome of a container's run.
#[derive(Clone, Copy, Debug, PartialEq, Eq)]
pub enum Outcome {
    /// All requests were answered.
    Answered,
    /// Memory ran out before there was a container.
    Unbuilt,
    /// Memory ran out at the start.
    Unstarted,
    /// Memory ran out in an event.
    Stopped,
    /// A law is broken.
    Broken(Law),
}

/// A law of containers.
#[derive(Clone, Copy, Debug, PartialEq, Eq)]
pub enum Law {
    /// A start and an event are refused only if memory ran out.
    Refusals,
    /// Each request has its response.
    Responses,
    /// A start that is refused returns all deployments, and a shutdown returns the components of all contexts.
    Returns,
    /// If nothing is refused, each component is started.
    Starts,
    /// Each component that was initialized is destroyed once, and each listener that was notified of the start of its
    /// context is notified once of its end.
    Ends,
    /// A container that memory has stopped refuses each event as stopped.
    Stop,
    /// The shutdown notifies listeners of the end of each live session, or of no session event if memory has run out.
    Sessions,
}

impl Outcome {
    /// Returns the text for an outcome.
    pub fn text(self) -> &'static str {
        match self {
            Outcome::Answered => "answered",
            Outcome::Unbuilt => "no memory for the deployments",
            Outcome::Unstarted => "no memory at the start",
            Outcome::Stopped => "no memory in an event",
            Outcome::Broken(law) => law.text(),
        }
    }

    /// Returns the exit status for an outcome. It is the greatest for a broken law.
    pub fn status(self) -> u8 {
        match self {
            Outcome::Answered => 0,
            Outcome::Unbuilt | Outcome::Unstarted | Outcome::Stopped => 3,
            Outcome::Broken(_) => 4,
        }
    }
}

impl Law {
    fn text(self) -> &'static str {
        match self {
            Law::Refusals => "broken: refused for another reason than memory",
            Law::Responses => "broken: another response",
            Law::Returns => "broken: not all components are returned",
            Law::Starts => "broken: a component is not started once",
            Law::Ends => "broken: a component is not ended as often as it was started",
            Law::Stop => "broken: an event after the last is not refused as stopped",
            Law::Sessions => "broken: another number of session events at the shutdown",
        }
    }
}
