//! How a connection over a stream comes to its end. Plain data, with no code.

/// How a connection over a stream came to its end.
#[derive(Clone, Copy, Debug, PartialEq, Eq)]
pub enum Ending {
    /// The dialogue ended: with QUIT, or where the server itself ended it.
    Quit,
    /// The peer's end came, and the dialogue hadn't ended.
    Gone,
    /// The house stops.
    Stopped,
}

/// Why a connection over a stream was broken off.
#[derive(Clone, Copy, Debug, PartialEq, Eq)]
pub enum TalkFault {
    /// The reader failed.
    Read,
    /// The sink failed.
    Write,
    /// Memory was refused.
    NoMemory,
    /// A verdict came that wasn't awaited: the worker itself must submit no more. The other faults
    /// end this connection alone.
    Torn,
}
