//! What may happen to a house, and why it didn't.

ghost use Rattle.std.specs.Prelude.{◌≡◌};

use std::alloc::AllocError;
use thiserror::Error;

/// One event. Connections and sessions are numbered from 1, shards from 0. Where an event is of both, the numbers of sessions are behind those of
/// connections: session 1 has the number of connections and one more.
#[derive(Clone, Copy, Debug, PartialEq, Eq)]
pub enum Event<'a> {
    /// Bytes came from the peer of a connection. Where none stands at its seat, one is opened first, with its greeting.
    Bytes(u8, &'a [u8]),
    /// The peer of a connection is gone. One that awaits no verdict leaves its seat; else it still puts its copies, says nothing more,
    /// and keeps the seat until each verdict is heard.
    Vanish(u8),
    /// A connection, or a session behind them, puts the next copy of its message into the lane of the mailbox's shard.
    Put(u8),
    /// A shard's consumer takes what waits at the front of its lane.
    Take(u8),
    /// The copy in a shard's hand is delivered, or refused.
    Deliver(u8),
    /// The verdict in a shard's hand goes into the reply lane of the copy's seat.
    Answer(u8),
    /// A connection, or a session behind them, hears the verdict at the front of its reply lane.
    Hear(u8),
    /// The seat of a producer, a connection or a session behind them, whoever stands there, puts its end into a shard's lane. After that each copy
    /// that it puts there is refused at once, as Shut.
    End { producer: u8, shard: u8 },
    /// A shard is shut: no recipient of its mailboxes is accepted any more. That marks it alone; what waits in its lane is still delivered.
    Close(u8),
    /// A user opens a session, which is greeted. The user is named as in the words of the settings, byte by byte.
    Enter(u8, &'a [u8]),
    /// Bytes came from a session's client. Each line that ends in them is answered; the mailbox's events of a line happen one after another. Where
    /// the verdict on a message that it appended is awaited, they only wait.
    Say(u8, &'a [u8]),
    /// A session that idles is shown what is pending in its mailbox, 64 changes at most; one that missed changes is told BYE and ends.
    Idle(u8),
    /// A session's client is gone. The session leaves its mailbox and removes nothing, and says nothing more. One that awaits the verdict on a
    /// message keeps its seat until that is heard.
    Leave(u8),
}

/// Why an event wasn't made. The first that holds is the fault. After Nobody, Busy and Nothing nothing changed.
#[derive(Clone, Copy, Debug, PartialEq, Eq, Error)]
pub enum HouseFault {
    /// The connection, the session, the user or the shard isn't there, or the seat takes no new connection or session.
    #[error("nobody is there")]
    Nobody,
    /// The place is taken, the shard is shut already, or the seat still waits for the verdicts of a connection or a session whose peer is gone.
    #[error("the place is taken")]
    Busy,
    /// There is nothing to do, or it may not happen now.
    #[error("there is nothing to do")]
    Nothing,
    /// Memory was wanting. What was done by then stands, and the next event of the connection or session goes on from there.
    #[error("out of memory")]
    NoMemory,
}

impl From<AllocError> for HouseFault {
    ghost use Rattle.house.specs.declared.event.HouseFault.{HouseFault};

    ghost from_gives = { λ _ fault. fault ≡ HouseFault.NoMemory };

    fn from(_error: AllocError) -> HouseFault {
        HouseFault::NoMemory
    }
}
