//! A shared consumer: a shard's consumer whose type says of which lane group its permits are, so that this is known
//! again after it was under a lock. Whose thread makes its steps does not matter here.

ghost use Rattle.std.specs.Prelude.{◌≡◌, ◌≤◌, [], All, List, Option, None, Some, length, slice_get, vec_len, vec_capacity, true, false};
ghost use Rattle.delivery_token.specs.declared.Job.{Job};
ghost use Rattle.shard_queue.specs.Permits.{ShardQueue};
ghost use Rattle.shard_queue.specs.Reply.{sent_on};
ghost use Rattle.shard_queue.specs.Permits.{WasEmpty, capacity_of, got, producers_of, take_seen};
ghost use Rattle.shard_queue.specs.Shared.{IsStartOf};
ghost use Rattle.lane_work.specs.Consuming.{IsConsumed};
ghost use Rattle.lane_work.specs.Permits.{AreSenders};
ghost use Rattle.shared_consumers.specs.Keeping.{IsOnLane, Parts, parts_of};

use crate::turn::{Turn, take_turn};
use house_history::{Answer, Letter, Naming};
use lane_work::{Consumed, Delivery, Stall, end_senders};
use shard_queue::{SenderEnded, ShardQueue};
use std::alloc::Global;
use std::marker::{Brand, Model, PhantomData};
use std::sync::Wait;
use workers_sync::{Gate, SyncPoint};

/// Which lanes and which delivery side the permits of shared consumers are of. Whoever calls a function over a lane group picks
/// them, by the name `Brand`.
pub trait LaneGroup {
    ghost lanes: { Option (List (ShardQueue Job)) };

    ghost delivery: { Option Parts };
}

impl LaneGroup for Brand {
    ghost lanes = { None };

    ghost delivery = { None };
}

/// A shard's consumer: whoever holds its lock acts for it.
pub struct SharedConsumer<B: Naming, H: LaneGroup> {
    // Its bell is never waited on.
    stall: Stall<B>,
    // Whether it took a copy that was nobody's.
    torn: bool,
    // How many copies it has taken since it last found its lane empty.
    in_a_row: u64,
    // The most of these that there were.
    longest: u64,
    of: PhantomData<H>,
}

impl<B: Naming, H: LaneGroup> Model for SharedConsumer<B, H> {
    ghost use Rattle.shared_consumers.specs.SharedConsumer.{SharedConsumer};

    ghost Value = { SharedConsumer };

    ghost use Rattle.shard_queue.specs.Permits.{got, take_seen};
    ghost use Rattle.shared_consumers.specs.inner.Keeping.{Keeps};

    ghost view = { λ c. record { shard = c.stall.shard; took = got c.stall.permit; seen = take_seen c.stall.permit } };

    ghost invariant = { λ c. Keeps H.lanes H.delivery c.stall c.torn };
}

impl<B: Naming, H: LaneGroup> SharedConsumer<B, H> {
    /// The shared consumer of a shard whose stall was dealt and never worked at.
    pub fn new(stall: Stall<B>) -> SharedConsumer<B, H>
        // The stall is one of the lane group's: it has the consumer's permit of its lane there, and a sender's on each channel of its delivery side.
        requires lane { (lanes : List (ShardQueue Job)) → H.lanes ≡ Some lanes
            → IsOnLane lanes stall }
        requires senders { (delivery : Parts) → H.delivery ≡ Some delivery
            → AreSenders delivery.channels stall.shard stall.senders.items }

        // It has taken nothing, and sent nothing.
        requires fresh { (got stall.permit ≡ []) × All (λ s. sent_on s ≡ []) stall.senders.items }
        ensures { result ≡ record {
          shard = stall.shard;
          took = [];
          seen = take_seen stall.permit;
        } }
    {
        SharedConsumer {
            stall,
            torn: false,
            in_a_row: 0,
            longest: 0,
            of: PhantomData,
        }
    }

    /// The number of its shard.
    pub fn shard(&self) -> u8
        ensures { result ≡ self.now.shard }
    {
        self.stall.shard
    }

    /// The most copies that it has taken in a row before it found its lane empty: no more ever waited
    /// there as it began to take. It is for people alone, so nothing is proved of it.
    pub fn longest(&self) -> u64 {
        self.longest
    }

    // It found its lane empty.
    fn note_empty(&mut self)
        ensures { self.new ≡ self.old }
    {
        self.longest = self.longest.max(self.in_a_row);
        self.in_a_row = 0;
    }

    // Takes and serves what stands first on its lane. Whether anything did.
    fn step<R: Wait, G: Gate>(
        &mut self,
        rt: &R,
        sync_point: &mut SyncPoint<'_, G>,
        lanes: &[ShardQueue<Letter<B>>],
        delivery: &Delivery<B>,
    ) -> bool
        requires lanes { H.lanes ≡ Some lanes.now }
        requires delivery { H.delivery ≡ Some (parts_of delivery.now) }
        ensures shard { self.new.shard ≡ self.old.shard }
        ensures took { IsStartOf self.old.took self.new.took }
        ensures empty { result ≡ false → (lane : ShardQueue Job)
            → slice_get lanes.now self.new.shard ≡ Some lane
            → WasEmpty (producers_of lane) (capacity_of lane) self.new.took self.new.seen }
    {
        let lane = &lanes[usize::from(self.stall.shard)];
        match take_turn(rt, sync_point, delivery, lane, &mut self.stall) {
            Turn::Copy(ours) => {
                self.torn |= !ours;
                self.in_a_row = self.in_a_row.saturating_add(1);
                true
            }
            Turn::End => true,
            Turn::Empty => false,
        }
    }

    /// Takes what waits on its lane until nothing does: each copy is delivered under its mailbox's lock,
    /// and its producer is told. It was then empty at one moment since it last took, behind all that had
    /// been there then.
    pub fn clear<R: Wait, G: Gate>(
        &mut self,
        rt: &R,
        sync_point: &mut SyncPoint<'_, G>,
        lanes: &[ShardQueue<Letter<B>>],
        delivery: &Delivery<B>,
    )
        // Lanes and delivery side are those of the shared consumer's lane group.
        requires lanes { H.lanes ≡ Some lanes.now }
        requires delivery { H.delivery ≡ Some (parts_of delivery.now) }

        // Its shard is the same, and what it had taken stands in front of what it has taken now.
        ensures shard { self.new.shard ≡ self.old.shard }
        ensures took { IsStartOf self.old.took self.new.took }

        // At one moment nothing waited on its lane, and it had taken all that it had seen there when it last took.
        ensures empty { (lane : ShardQueue Job) → slice_get lanes.now self.new.shard ≡ Some lane
            → WasEmpty (producers_of lane) (capacity_of lane) self.new.took self.new.seen }
    {
        for _ in rt.forever() {
            if !self.step(rt, sync_point, lanes, delivery) {
                self.note_empty();
                return;
            }
        }
        unreachable!()
    }

    /// Ends its permit on each reply channel, and leaves what a consumer leaves that has kept no copy.
    /// `room`, which is empty, has room for all channels. Where a channel is full it tries again until
    /// there is room.
    pub fn into_consumed<R: Wait, G: Gate>(
        self,
        rt: &R,
        sync_point: &mut SyncPoint<'_, G>,
        delivery: &Delivery<B>,
        room: Vec<SenderEnded<Answer<B>>>,
        alloc: Global,
    ) -> Consumed<B>
        // The delivery side is that of the shared consumer's lane group.
        requires delivery { H.delivery ≡ Some (parts_of delivery.now) }
        requires room { (room.items ≡ [])
            × (length delivery.now.channels.items ≤ vec_capacity room) }

        // It leaves what a consumer leaves that had sent nothing before, of its lane in the lane group.
        ensures consumed { (lanes : List (ShardQueue Job)) → H.lanes ≡ Some lanes
            → (lane : ShardQueue Job) → slice_get lanes self.shard ≡ Some lane
            → IsConsumed lane delivery.now self.shard [] result }

        // Its permit has taken what the shared consumer had; nothing is kept of it, and there is what is left of a sender for each channel.
        ensures took { (got result.permit ≡ self.took) × (take_seen result.permit ≡ self.seen) }
        ensures none { (result.taken.items ≡ []) × (result.kept ≡ false) }
        ensures count { vec_len result.senders ≡ length delivery.now.channels.items }
    {
        let SharedConsumer {
            stall,
            torn,
            in_a_row: _,
            longest: _,
            of: _,
        } = self;
        let Stall {
            shard,
            permit,
            senders,
            bell: _,
        } = stall;
        let senders = end_senders(rt, sync_point, &delivery.channels, shard, senders, room);
        Consumed {
            permit,
            senders,
            taken: Vec::new(alloc),
            kept: false,
            torn,
        }
    }

    /// Its stall, as far as it has worked there.
    pub fn into_stall(self) -> Stall<B>
        ensures shard { result.shard ≡ self.shard }

        // The stall has taken what the shared consumer had, and its permits are still those of its lane group.
        ensures took { (got result.permit ≡ self.took) × (take_seen result.permit ≡ self.seen) }
        ensures lane { (lanes : List (ShardQueue Job)) → H.lanes ≡ Some lanes
            → IsOnLane lanes result }
        ensures senders { (delivery : Parts) → H.delivery ≡ Some delivery
            → AreSenders delivery.channels self.shard result.senders.items }
    {
        let SharedConsumer {
            stall,
            torn: _,
            in_a_row: _,
            longest: _,
            of: _,
        } = self;
        stall
    }
}
