//! Who acts in a running house, and the gate that each actor passes before each of its events: what
//! a test holds threads up by, so that they meet in the order that it wants. What the events are
//! stands above, and nothing is proved of a gate.

/// An actor of a running house, by its number among those of its kind, from 0.
#[derive(Clone, Copy, Debug, PartialEq, Eq)]
pub enum Actor {
    /// It plays LMTP connections.
    Worker(u8),
    /// It takes copies from a shard's lane and delivers them.
    Consumer(u8),
    /// It is one client's, at the mailboxes of its user.
    Session(u8),
}

/// What is asked before each event of an actor, also before a try that finds nothing or no room.
///
/// A gate may hold an actor up, by spinning or by sleeping; it has to let each actor pass in the end.
/// It is asked by many threads at once.
pub trait Gate {
    /// This actor is about to make an event, or to try. `number` counts the times that it asked
    /// before, and stays at the last `u64`.
    fn pass(&self, who: Actor, number: u64);
}

/// One actor on its way through a gate.
#[derive(Drop)]
pub struct SyncPoint<'a, G> {
    gate: &'a G,
    who: Actor,
    next: u64,
}

impl<'a, G: Gate> SyncPoint<'a, G> {
    /// An actor that hasn't asked yet.
    pub fn new(gate: &'a G, who: Actor) -> SyncPoint<'a, G> {
        SyncPoint { gate, who, next: 0 }
    }

    /// Asks to pass, once.
    pub fn pass(&mut self) {
        self.gate.pass(self.who, self.next);
        self.next = self.next.saturating_add(1);
    }
}
