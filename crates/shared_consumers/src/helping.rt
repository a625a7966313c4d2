//! How whoever has put a copy gets it taken: by the shared consumer of its shard, under that one's lock. What a
//! shared consumer does does not belong here, nor who puts.

ghost use Rattle.std.specs.Prelude.{ℕ, ◌≡◌, ◌≤◌, ◌<◌, ◌+◌, ◌*◌, Some};
ghost use Rattle.delivery_token.specs.declared.Job.{Job};
ghost use Rattle.shard_queue.specs.Permits.{ShardQueue};
ghost use Rattle.shared_consumers.specs.Keeping.{parts_of};

use crate::shared_consumer::{LaneGroup, SharedConsumer};
use house_history::{Letter, Naming};
use lane_work::{Delivery, Notifier};
use shard_queue::ShardQueue;
use std::hint;
use std::sync::{Mutex, Wait};
use workers_sync::{Actor, Gate, SyncPoint};

/// So often it is looked whether a shared consumer's lock is free before it is waited for asleep: most shared consumers hold it for a few microseconds.
const LOOKS: u32 = 200;

/// So many copies of one message are put on a lane at most before its shared consumer is notified.
const MOST_AT_ONCE: usize = 8;

/// How many copies of one message each of so many workers may put on a lane before its shared consumer is
/// notified, so that a lane of this depth has room for those of all of them at a time and for one copy
/// of each client slot. One where that is more than fits: then a lane may be found full.
pub fn copies_at_once(depth: usize, workers: usize, client_slots: usize) -> usize
    // As many as fit, and no more than eight.
    ensures some { (0 < result) × (result ≤ 8) }
    ensures fit { 1 < result → workers * result + client_slots ≤ depth }
    ensures most { (n : ℕ) → n ≤ 8 → 0 < workers → workers * n + client_slots ≤ depth → n ≤ result }
{
    let room = depth.saturating_sub(client_slots);
    (room / workers.max(1)).min(MOST_AT_ONCE).max(1)
}

/// A gate that lets each actor pass at once.
#[derive(Clone, Copy, Debug, PartialEq, Eq)]
pub struct Unhindered;

impl Gate for Unhindered {
    fn pass(&self, _who: Actor, _number: u64) {}
}

/// The shared consumers of all shards, each behind its lock at the position of its shard, with what they work on.
#[derive(Drop)]
pub struct SharedConsumers<'a, B: Naming, H: LaneGroup, G> {
    shared_consumers: &'a [Mutex<SharedConsumer<B, H>>],
    lanes: &'a [ShardQueue<Letter<B>>],
    delivery: &'a Delivery<B>,
    gate: &'a G,
    at_once: usize,
    ghost lanes_are: { H.lanes ≡ Some lanes.now },
    ghost delivery_is: { H.delivery ≡ Some (parts_of delivery.now) },
}

impl<'a, B: Naming, H: LaneGroup, G: Gate> SharedConsumers<'a, B, H, G> {
    /// The shared consumers of a lane group with these lanes and this delivery side, who ask this gate before each of their
    /// steps, and are notified behind so many copies of a message (`copies_at_once`; 0 counts as 1).
    pub fn new(
        shared_consumers: &'a [Mutex<SharedConsumer<B, H>>],
        lanes: &'a [ShardQueue<Letter<B>>],
        delivery: &'a Delivery<B>,
        gate: &'a G,
        at_once: usize,
    ) -> SharedConsumers<'a, B, H, G>
        requires lanes { H.lanes ≡ Some lanes.now }
        requires delivery { H.delivery ≡ Some (parts_of delivery.now) }
    {
        SharedConsumers {
            shared_consumers,
            lanes,
            delivery,
            gate,
            at_once,
        }
    }

    /// Takes all that waits on a shard's lane, as its shared consumer: it waits for that one's lock, and lets it go
    /// when the lane was found empty. What was put there before the call is then taken, by this call or
    /// by whoever had the lock before. Where there is no such shard it does nothing.
    pub fn help<R: Wait>(&self, rt: &R, shard: usize) {
        if let Some(lock) = self.shared_consumers.get(shard) {
            self.help_behind(rt, lock);
        }
    }

    fn help_behind<R: Wait>(&self, rt: &R, lock: &Mutex<SharedConsumer<B, H>>) {
        for _ in 0..LOOKS {
            if let Some(mut shared_consumer) = lock.try_lock() {
                self.clear(rt, &mut shared_consumer);
                return;
            }
            hint::spin_loop();
        }
        let mut shared_consumer = lock.lock(rt);
        self.clear(rt, &mut shared_consumer);
    }

    fn clear<R: Wait>(&self, rt: &R, shared_consumer: &mut SharedConsumer<B, H>) {
        let mut sync_point = SyncPoint::new(self.gate, Actor::Consumer(shared_consumer.shard()));
        shared_consumer.clear(rt, &mut sync_point, self.lanes, self.delivery);
    }
}

/// A shared consumer is notified by doing its work.
impl<'a, B: Naming, H: LaneGroup, G: Gate> Notifier for SharedConsumers<'a, B, H, G> {
    fn notify<R: Wait>(&self, rt: &R, shard: usize) {
        self.help(rt, shard);
    }

    // No shared consumer sleeps, so none has to be called behind each copy.
    fn at_once(&self) -> usize {
        self.at_once.max(1)
    }
}
