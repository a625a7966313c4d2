//! A shard queue: a lane whose consumer asks for what waits, and goes on where nothing does.

ghost use Rattle.std.specs.Prelude.{◌≡◌, ◌<◌, ◌++◌, ◌∷◌, [], MatchOption, MatchResult};
ghost use Rattle.shard_queue.specs.Lane.{producer};
ghost use Rattle.shard_queue.specs.Plain.{taken_entry};
ghost use Rattle.shard_queue.specs.Permits.{IsConsumer, IsLeftBy, WasEmpty, capacity_of, got, producers_of, take_seen};

use crate::carrier::Carrier;
use crate::lane::{Entry, Taken};
use crate::permits::{ClosedLane, ConsumersPermit, EndedPermit, Permit, SharedLane, Unclosed};
use crate::shared::{Announce, HearOut, Hire, Merge, Put, Take, View};
use crossbeam_queue::{Pass, RuledArrayQueue};
use std::alloc::{AllocError, Global};
use std::sync::Wait;

/// What carries a shard queue's entries.
#[derive(Drop)]
pub struct EntryQueue<T> {
    pub(crate) queue: RuledArrayQueue<Entry<T>, View<T>, Merge>,
}

type QueuePass<T> = Pass<Entry<T>, View<T>>;

/// A lane from up to 255 producers to one consumer, for threads. Between any two atomic steps, what
/// was taken and then what waits is, of each producer, what it has sent.
pub type ShardQueue<T> = SharedLane<EntryQueue<T>>;

/// The permit of a queue's producer.
pub type ProducerPermit<T> = Permit<QueuePass<T>>;

/// What is left of a queue's producer after its end.
pub type Ended<T> = EndedPermit<QueuePass<T>>;

/// The permit of a queue's consumer.
pub type ConsumerPermit<T> = ConsumersPermit<QueuePass<T>>;

/// What is left of a queue that was closed.
pub type Closed<T> = ClosedLane<QueuePass<T>>;

/// All that `close` was given, unchanged.
pub type NotAll<T> = Unclosed<EntryQueue<T>, QueuePass<T>>;

impl<T: Drop> Carrier for EntryQueue<T> {
    ghost use Rattle.crossbeam_queue.specs.Passes.{IsPassOf, ruled_capacity, view};
    ghost use Rattle.shard_queue.specs.Shared.{FoundFull, MayPut, Puts};

    type Item = T;

    type Pass = QueuePass<T>;

    ghost room = { λ q. ruled_capacity q.queue };

    ghost is_of = { λ q p. IsPassOf q.queue p };

    ghost view = { view };

    fn make(alloc: Global, capacity: usize) -> Result<(EntryQueue<T>, QueuePass<T>), AllocError> {
        let (queue, pass) = RuledArrayQueue::ruled(alloc, capacity)?;
        Ok((EntryQueue { queue }, pass))
    }

    fn announce(&self, pass: &mut QueuePass<T>, announced: u8) {
        self.queue.another::<Announce>(pass);
    }

    fn hire(&self, pass: &mut QueuePass<T>, producers: u8, number: u8) -> QueuePass<T> {
        self.queue.another::<Hire>(pass)
    }

    fn put<R: Wait>(
        &self,
        rt: &R,
        pass: &mut QueuePass<T>,
        producers: u8,
        entry: Entry<T>,
    ) -> Result<(), Entry<T>>
        requires { IsPassOf self.now.queue pass.old × MayPut producers entry (view pass.old) }
        ensures pass { IsPassOf self.now.queue pass.new }
        ensures put { MatchResult result (λ _. Puts (view pass.old) entry (view pass.new))
            (λ back. (back ≡ entry)
            × FoundFull (ruled_capacity self.now.queue) (view pass.old) (view pass.new)) }
    {
        self.queue.push_as::<Put, R>(rt, pass, entry)
    }

    fn absorb(&self, pass: &mut QueuePass<T>, producers: u8, ended: QueuePass<T>, number: u8) {
        self.queue.absorb::<HearOut>(pass, ended);
    }

    fn look(&self, pass: &mut QueuePass<T>) {
        self.queue.learn_as::<Take>(pass);
    }
}

impl<T: Drop> ShardQueue<T> {
    /// Takes the first entry that waits, which is of one of the queue's producers; takes no memory.
    /// Empty only where at one moment since the last take nothing waited, so that all is taken that stood behind the
    /// entry before (a mere look doesn't give that); nothing was taken then.
    pub fn take_as<R: Wait>(&self, rt: &R, permit: &mut ConsumerPermit<T>) -> Taken<T>
        // The permit is that of this queue's consumer.
        requires permit { IsConsumer self.now permit.old }
        // So it is afterwards.
        ensures permit { IsConsumer self.now permit.new }
        // Empty: nothing was taken, and at one moment since the last take nothing waited. Else a producer's entry is the last that was taken.
        ensures taken { MatchOption (taken_entry result)
            ((got permit.new ≡ got permit.old) × (take_seen permit.new ≡ take_seen permit.old)
            × WasEmpty (producers_of self.now) (capacity_of self.now) (got permit.old)
            (take_seen permit.old))
            (λ e. (got permit.new ≡ got permit.old ++ e ∷ []) × (producer e < producers_of self.now)
            × IsLeftBy (take_seen permit.old) (got permit.new) (take_seen permit.new)) }
    {
        match self.carrier.queue.pop_as::<Take, R>(rt, &mut permit.pass) {
            Some(Entry::Item(p, item)) => Taken::Item(p, item),
            Some(Entry::End(p)) => {
                permit.ended.mark(p);
                Taken::End(p)
            }
            None => Taken::Empty,
        }
    }
}
