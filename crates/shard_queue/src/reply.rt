//! A reply channel: a lane with the roles exchanged, in which many shards answer one worker, and the
//! worker waits where nothing does.

ghost use Rattle.std.specs.Prelude.{◌≡◌, ◌<◌, ◌++◌, ◌∷◌, [], MatchResult};
ghost use Rattle.shard_queue.specs.Lane.{producer};
ghost use Rattle.shard_queue.specs.Permits.{IsLeftBy};
ghost use Rattle.shard_queue.specs.Reply.{IsReceiver, receive_seen, received, senders_of};

use crate::carrier::Carrier;
use crate::ends::BothEnds;
use crate::lane::Entry;
use crate::permits::{ClosedLane, ConsumersPermit, EndedPermit, Permit, SharedLane, Unclosed};
use crate::shared::{Announce, HearOut, Hire, Put, Take, View};
use crossbeam_channel::{Pass, TrySendError, bounded_with};
use std::alloc::{AllocError, Global};
use std::sync::Wait;

type ChannelPass<T> = Pass<Entry<T>, View<T>>;

/// A lane from up to 255 senders to one receiver that may wait for what comes. Between any two atomic
/// steps, what was taken and then what waits is, of each sender, what it has sent.
pub type ReplyChannel<T> = SharedLane<BothEnds<T>>;

/// The permit of a channel's sender.
pub type SenderPermit<T> = Permit<ChannelPass<T>>;

/// What is left of a channel's sender after its end.
pub type SenderEnded<T> = EndedPermit<ChannelPass<T>>;

/// The permit of a channel's receiver.
pub type ReceiverPermit<T> = ConsumersPermit<ChannelPass<T>>;

/// What is left of a channel that was closed.
pub type ReplyClosed<T> = ClosedLane<ChannelPass<T>>;

/// All that `close` was given, unchanged.
pub type ReplyNotAll<T> = Unclosed<BothEnds<T>, ChannelPass<T>>;

impl<T: Drop> Carrier for BothEnds<T> {
    ghost use Rattle.crossbeam_channel.specs.Claims.{IsSeatAt, view};
    ghost use Rattle.crossbeam_channel.specs.Ends.{ruled_capacity, sends_on};
    ghost use Rattle.shard_queue.specs.Shared.{FoundFull, MayPut, Puts};

    type Item = T;

    type Pass = ChannelPass<T>;

    ghost room = { λ c. ruled_capacity (sends_on c.sender) };

    ghost is_of = { λ c p. IsSeatAt (sends_on c.sender) p };

    ghost view = { view };

    fn make(alloc: Global, capacity: usize) -> Result<(BothEnds<T>, ChannelPass<T>), AllocError> {
        let (sender, receiver, pass) = bounded_with(alloc, capacity)?;
        Ok((BothEnds { sender, receiver }, pass))
    }

    fn announce(&self, pass: &mut ChannelPass<T>, announced: u8) {
        self.sender.another::<Announce>(pass);
    }

    fn hire(&self, pass: &mut ChannelPass<T>, producers: u8, number: u8) -> ChannelPass<T> {
        self.sender.another::<Hire>(pass)
    }

    fn put<R: Wait>(
        &self,
        rt: &R,
        pass: &mut ChannelPass<T>,
        producers: u8,
        mut entry: Entry<T>,
    ) -> Result<(), Entry<T>>
        requires { IsSeatAt (sends_on self.now.sender) pass.old
            × MayPut producers entry (view pass.old) }
        ensures pass { IsSeatAt (sends_on self.now.sender) pass.new }
        ensures put { MatchResult result (λ _. Puts (view pass.old) entry (view pass.new))
            (λ back. (back ≡ entry) × FoundFull (ruled_capacity (sends_on self.now.sender))
            (view pass.old) (view pass.new)) }
    {
        // Both ends are here, so nobody is ever told that the other is gone. No clause of the channel
        // says so: whoever were told would try again.
        for _ in rt.forever() {
            match self.sender.try_send_as::<Put, R>(rt, pass, entry) {
                Ok(()) => return Ok(()),
                Err(TrySendError::Full(back)) => return Err(back),
                Err(e) => entry = e.into_inner(),
            }
        }
        unreachable!()
    }

    fn absorb(&self, pass: &mut ChannelPass<T>, producers: u8, ended: ChannelPass<T>, number: u8) {
        self.sender.absorb::<HearOut>(pass, ended);
    }

    fn look(&self, pass: &mut ChannelPass<T>) {
        self.sender.learn_as::<Take>(pass);
    }
}

impl<T: Drop> ReplyChannel<T> {
    /// Takes the first entry that waits, which is of one of the channel's senders; where nothing waits,
    /// it waits for an entry. Takes no memory.
    pub fn recv_as<R: Wait>(&self, rt: &R, permit: &mut ReceiverPermit<T>) -> Entry<T>
        // The permit is that of this channel's receiver.
        requires permit { IsReceiver self.now permit.old }
        // So it is afterwards.
        ensures permit { IsReceiver self.now permit.new }
        // The entry is the last that was received, and one of the channel's senders sent it.
        ensures received { (received permit.new ≡ received permit.old ++ result ∷ [])
            × (producer result < senders_of self.now)
            × IsLeftBy (receive_seen permit.old) (received permit.new) (receive_seen permit.new) }
    {
        for _ in rt.forever() {
            match self
                .carrier
                .receiver
                .recv_as::<Take, R>(rt, &mut permit.pass)
            {
                Ok(Entry::Item(p, item)) => return Entry::Item(p, item),
                Ok(Entry::End(p)) => {
                    permit.ended.mark(p);
                    return Entry::End(p);
                }
                Err(_) => {}
            }
        }
        unreachable!()
    }
}
