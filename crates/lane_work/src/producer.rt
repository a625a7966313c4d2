//! What a producer works with: what is lent to it and stays as it is, and what is its own. What it does with them stands in the modules
//! beside this one.

use crate::bells::Notifier;
use crate::desk::{Desk, Intake};
use crate::verdict_log::VerdictLog;
use house_history::{Answer, Naming};
use shard_queue::ReplyChannel;
use std::alloc::Global;
use std::sync::Wait;
use workers_sync::{Gate, SyncPoint};

/// What a producer works with, and leaves as it is.
#[derive(Drop)]
pub struct Context<'a, B: Naming, R: Wait, S: Notifier> {
    /// What it waits by, where a lane or a lock is taken.
    pub rt: &'a R,
    /// Where its memory comes from.
    pub alloc: Global,
    /// What it shares with all who put copies: the lanes, and which shard keeps a mailbox.
    pub intake: &'a Intake<B>,
    /// Whom it notifies for a copy that it put.
    pub notifier: &'a S,
    /// Its reply channel, on which its verdicts come.
    pub channel: &'a ReplyChannel<Answer<B>>,
}

/// What a producer has of its own.
pub struct Producer<'a, B: Naming, G: Gate, N: VerdictLog> {
    /// At what it makes its events.
    pub sync_point: SyncPoint<'a, G>,
    /// Its number, its permits, its end of the reply channel, and what it sends with.
    pub desk: Desk<B>,
    /// What it notes of the verdicts on its copies.
    pub book: N,
}
