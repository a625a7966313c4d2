//! What the producers of a server work with. What they do with it stands elsewhere.

ghost use Rattle.std.specs.Prelude.{◌≡◌, Some};
ghost use Rattle.shared_consumers.specs.Keeping.{parts_of};

use crate::acceptor::Acceptor;
use crate::mark::Mark;
use house_history::Naming;
use house_shared::HouseShared;
use server_report::{Log, Names, Presence};
use shared_consumers::{LaneGroup, SharedConsumer, SharedConsumers, Unhindered};
use std::sync::{Arc, Mutex};
use workers_sync::{Listening, Pause, ShutdownHandle};

/// What all producers of a server work with, and those who close it. It is made before the first of their threads. It owns what it holds:
/// a closure that captures a reference to a struct with borrows in it loses what is proved of its result.
pub struct Workplace<B: Naming, H: LaneGroup> {
    /// Lanes, channels, mailboxes and the directory.
    pub shared: HouseShared<B>,
    /// The shared consumer of each shard, behind its lock at the shard's position.
    pub shared_consumers: Vec<Mutex<SharedConsumer<B, H>>>,
    /// Behind so many copies of one message a shared consumer is notified (`copies_at_once`).
    pub at_once: usize,
    /// Where mail comes in; each worker's line is at it.
    pub lmtp: Arc<Listening>,
    /// Set once the house stops.
    pub mark: Mark,
    /// For threads that can't accept a connection, and for last words.
    pub pause: Pause,
    /// What happens is told there.
    pub log: Log,
    /// How many workers take mail; the other producers are client slots of users.
    pub workers: u8,
    /// How many client slots each user has.
    pub sessions: u8,
    /// What each worker shows of the connection that it has at hand, in the order of their numbers.
    pub presences: Vec<Presence>,
}

impl<B: Naming, H: LaneGroup> Workplace<B, H> {
    /// How the shared consumers are notified, with a gate that holds nobody up.
    pub fn notifier<'a>(&'a self, gate: &'a Unhindered) -> SharedConsumers<'a, B, H, Unhindered>
        // The shared state is that of the shared consumers' lane group.
        requires lanes { H.lanes ≡ Some self.now.shared.intake.lanes.items }
        requires delivery { H.delivery ≡ Some (parts_of self.now.shared.delivery) }
    {
        let shared = &self.shared;
        SharedConsumers::new(
            &self.shared_consumers,
            &shared.intake.lanes,
            &shared.delivery,
            gate,
            self.at_once,
        )
    }

    /// By what the log tells those apart who call.
    pub fn names(&self) -> Names<'_> {
        Names {
            directory: &self.shared.intake.directory,
            workers: self.workers,
            sessions: self.sessions,
        }
    }

    /// What the worker of this number goes by, who has this shutdown handle.
    pub fn acceptor<'a>(&'a self, number: u8, shutdown_handle: &'a ShutdownHandle) -> Acceptor<'a> {
        Acceptor {
            shutdown_handle,
            mark: &self.mark,
            pause: &self.pause,
            log: &self.log,
            names: self.names(),
            presence: self.presences.get(usize::from(number)),
        }
    }
}
