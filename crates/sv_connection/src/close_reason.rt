//! The reason why a connection ended.

/// The reason why a connection ended.
#[derive(Clone, Copy, Debug, PartialEq, Eq)]
pub enum CloseReason {
    /// The peer ended its stream. All bytes to send were written.
    PeerEnded,
    /// A reaction closes the connection, and all its bytes were written.
    AnswerCloses,
    /// A read failed.
    ReadFails,
    /// A write failed. Part of the bytes to send was written.
    WriteFails,
    /// The connection was given up: it took too long, its place or its bytes were needed, it could not be armed, or the
    /// loop stops.
    GivenUp,
}

/// How a connection that has ended is closed (RFC 9112, section 9.6).
#[derive(Clone, Copy, Debug, PartialEq, Eq)]
pub enum Closing {
    /// At once: its peer has ended the stream, or is gone.
    AtOnce,
    /// At once if nothing was received after the last request and all written bytes have left; otherwise in stages. The
    /// peer should send no more.
    Answered,
    /// In stages: no more is sent to the peer, and the bytes that it still sends are read and dropped, so that it reads
    /// the last response.
    InStages,
}
