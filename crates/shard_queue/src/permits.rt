//! A lane that threads share: what carries its entries, a permit for each producer and one for the consumer.
//! Whoever holds a permit acts for it, and no other.

ghost use Rattle.std.specs.Prelude.{◌≡◌, ◌==◌, ◌+◌, ◌<◌, ◌++◌, ◌∷◌, [], true, false, None, IfOk, IfErr, MatchResult, vec_len, map, All};
ghost use Rattle.std.specs.List.{list_any};
ghost use Rattle.shard_queue.specs.declared.lane.Entry.TheVariants as entries;
ghost use Rattle.shard_queue.specs.Lane.{of, has_end};
ghost use Rattle.shard_queue.specs.Shared.{consumer, list_of};
ghost use Rattle.shard_queue.specs.Closing.{IsAll, IsNotAll, IsWhole, HasAllEnds};
ghost use Rattle.shard_queue.specs.SharedLane.{IsPermit, IsEndedPermit, IsConsumersPermit, sent, said, taken, all_taken, number_of, ended_number, numbers, put_seen, end_seen, IsPutBehind, WasFull};

use crate::carrier::Carrier;
use crate::lane::{Entry, Full};
use crate::marks::Marks;
use std::alloc::{AllocError, Global};
use std::sync::Wait;

/// A lane from up to 255 producers to one consumer, for threads. Between any two atomic steps, what
/// was taken and then what waits is, of each producer, what it has sent.
pub struct SharedLane<C> {
    pub(crate) carrier: C,
    pub(crate) producers: u8,
}

/// Whoever holds it puts for this producer. It can't be copied, and must be spent: by its end, or by
/// `abandon`.
pub struct Permit<P> {
    pass: P,
    number: u8,
}

/// What is left of a producer's permit after its end. It can't be copied, and must be spent: by `close`
/// or `abandon`.
pub struct EndedPermit<P> {
    pass: P,
    number: u8,
}

/// Whoever holds it takes. It can't be copied, and must be spent: by `close` or `abandon`.
pub struct ConsumersPermit<P> {
    pub(crate) pass: P,
    // Of each producer, whether its end was taken.
    pub(crate) ended: Marks,
}

/// What is left of a lane whose producers have all ended, and whose entries were all taken.
#[derive(Drop)]
pub struct ClosedLane<P> {
    pass: P,
}

/// All that `close` was given, unchanged.
pub struct Unclosed<C, P> {
    /// The lane, which stays open.
    pub lane: SharedLane<C>,
    /// What is left of the producers that have ended.
    pub ended: Vec<EndedPermit<P>>,
    /// The consumer's permit.
    pub permit: ConsumersPermit<P>,
}

impl<P> Permit<P> {
    /// The producer's number, from 0.
    pub fn number(&self) -> u8
        ensures { result ≡ number_of self.now }
    {
        self.number
    }
}

impl<P> EndedPermit<P> {
    /// The number of the producer that has ended.
    pub fn number(&self) -> u8
        ensures { result ≡ ended_number self.now }
    {
        self.number
    }
}

impl<C: Carrier> SharedLane<C> {
    /// An empty lane with room for `capacity` entries (at least 1), the permits of the producers 0 to
    /// `producers - 1` in this order, and the consumer's. An error where memory is refused.
    pub fn new(
        alloc: Global,
        capacity: usize,
        producers: u8,
    ) -> Result<
        (
            SharedLane<C>,
            Vec<Permit<C::Pass>>,
            ConsumersPermit<C::Pass>,
        ),
        AllocError,
    >
        requires { 0 < capacity }
        // The lane has so much room, and so many producers.
        ensures lane { IfOk result (λ r. (C.room r.0.carrier ≡ capacity)
            × (r.0.producers ≡ producers)) }
        // There is a permit for each producer, in the order of their numbers, by which nothing was sent.
        ensures numbers { IfOk result (λ r. map number_of r.1.items ≡ numbers 0 producers) }
        ensures len { IfOk result (λ r. vec_len r.1 ≡ producers) }
        ensures permits { IfOk result (λ r. All (λ s. IsPermit C.view C.is_of r.0 s
            × (sent C.view s ≡ [])) r.1.items) }
        // The last is the consumer's, by which nothing was taken.
        ensures consumer { IfOk result (λ r. IsConsumersPermit C.view C.is_of r.0 r.2
            × (taken C.view r.2 ≡ [])) }
    {
        let ended = Marks::new(alloc)?;
        let (carrier, mut pass) = C::make(alloc, capacity)?;
        let mut permits = Vec::with_capacity(alloc, usize::from(producers))?;
        announce(&carrier, &mut pass, producers);
        for number in 0..producers {
            permits.push_reserved(Permit {
                pass: carrier.hire(&mut pass, producers, number),
                number,
            });
        }
        let lane = SharedLane { carrier, producers };
        let permit = ConsumersPermit { pass, ended };
        Ok((lane, permits, permit))
    }

    /// Puts an item behind all that waits; takes no memory. Full only where at one moment since its last put as
    /// many entries waited as there is room for, which goes on from what this producer had seen when it last
    /// put (a mere look doesn't give that); the item comes back then, and the producer has sent no more
    /// than before.
    pub fn put_as<R: Wait>(
        &self,
        rt: &R,
        permit: &mut Permit<C::Pass>,
        item: C::Item,
    ) -> Result<(), Full<C::Item>>
        // The permit is of a producer of this lane that has not ended.
        requires permit { IsPermit C.view C.is_of self.now permit.old }
        // So it is afterwards, of the same producer.
        ensures permit { IsPermit C.view C.is_of self.now permit.new
            × (number_of permit.new ≡ number_of permit.old) }
        // Ok: it has sent the item, last. Full: the item comes back, it has sent no more, and at one moment since it last put there was no room.
        ensures put { MatchResult result (λ _. (sent C.view permit.new
            ≡ sent C.view permit.old ++ entries.Item (number_of permit.old) item ∷ [])
            × IsPutBehind (put_seen C.view permit.old)
            (entries.Item (number_of permit.old) item) (put_seen C.view permit.new))
            (λ back. (back.0 ≡ item) × (sent C.view permit.new ≡ sent C.view permit.old)
            × (put_seen C.view permit.new ≡ put_seen C.view permit.old)
            × WasFull self.now.producers (C.room self.now.carrier) (number_of permit.old)
            (sent C.view permit.old) (put_seen C.view permit.old)) }
    {
        let entry = Entry::Item(permit.number, item);
        match self
            .carrier
            .put(rt, &mut permit.pass, self.producers, entry)
        {
            Ok(()) => Ok(()),
            Err(Entry::Item(_, back)) => Err(Full(back)),
            Err(Entry::End(_)) => unreachable!(),
        }
    }

    /// Puts the producer's end behind all that waits, after which it can put nothing more; takes no
    /// memory. Where it was full, as for an item, the permit comes back, and has sent no more than before.
    pub fn end_as<R: Wait>(
        &self,
        rt: &R,
        permit: Permit<C::Pass>,
    ) -> Result<EndedPermit<C::Pass>, Permit<C::Pass>>
        // The permit is of a producer of this lane that has not ended.
        requires permit { IsPermit C.view C.is_of self.now permit }
        // Ok: it has sent its end, last, and what is left of the permit says all that it sent.
        ensures ended { IfOk result (λ e. IsEndedPermit C.view C.is_of self.now e
            × (ended_number e ≡ number_of permit)
            × (said C.view e ≡ sent C.view permit ++ entries.End (number_of permit) ∷ [])
            × IsPutBehind (put_seen C.view permit) (entries.End (number_of permit))
            (end_seen C.view e)) }
        // Else the permit comes back, it has sent no more, and at one moment since it last put there was no room.
        ensures full { IfErr result (λ s. IsPermit C.view C.is_of self.now s
            × (number_of s ≡ number_of permit) × (sent C.view s ≡ sent C.view permit)
            × (put_seen C.view s ≡ put_seen C.view permit)
            × WasFull self.now.producers (C.room self.now.carrier) (number_of permit)
            (sent C.view permit) (put_seen C.view permit)) }
    {
        let Permit { mut pass, number } = permit;
        let end = Entry::End(number);
        match self.carrier.put(rt, &mut pass, self.producers, end) {
            Ok(()) => {}
            Err(_) => return Err(Permit { pass, number }),
        }
        Ok(EndedPermit { pass, number })
    }

    /// Closes a lane of which each producer has ended and each end was taken; takes no memory. What was
    /// taken of each producer is then all that it has sent. Unclosed exactly where an ended permit is missing or
    /// an end wasn't taken; it hands back all that it was given, unchanged.
    pub fn close(
        self,
        ended: Vec<EndedPermit<C::Pass>>,
        permit: ConsumersPermit<C::Pass>,
    ) -> Result<ClosedLane<C::Pass>, Unclosed<C, C::Pass>>
        // The permit is that of this lane's consumer, and each ended one is of a producer of this lane.
        requires permit { IsConsumersPermit C.view C.is_of self permit }
        requires ended { All (IsEndedPermit C.view C.is_of self) ended.items }
        // Ok: what is left tells all that was taken, and that is, of each producer, all that it sent.
        ensures history { IfOk result (λ c. all_taken C.view c ≡ taken C.view permit) }
        ensures each { IfOk result (λ _. All (λ e. said C.view e
            ≡ of (ended_number e) (taken C.view permit)) ended.items) }
        // Ok: each producer has ended, its end was taken, and nobody else has sent anything.
        ensures all { IfOk result (λ _.
            IsAll ended_number self.producers ended.items (taken C.view permit)) }
        ensures whole { IfOk result (λ _.
            IsWhole self.producers (C.room self.carrier) (taken C.view permit)) }
        // Unclosed: all comes back as it was given; an ended permit is missing, or an end was not taken.
        ensures back { IfErr result (λ n. (n.lane ≡ self) × (n.ended ≡ ended) × (n.permit ≡ permit)
            × IsNotAll ended_number self.producers ended.items (taken C.view permit)) }
    {
        if !self.are_all(ended.as_slice(), &permit) {
            return Err(Unclosed {
                lane: self,
                ended,
                permit,
            });
        }
        let ConsumersPermit { mut pass, ended: _ } = permit;
        self.hear_all_out(&mut pass, ended);
        self.carrier.look(&mut pass);
        let SharedLane {
            carrier: _,
            producers: _,
        } = self;
        Ok(ClosedLane { pass })
    }

    /// Spends what is left of a lane that is not to be closed; what waits in it is dropped. It promises
    /// nothing, and takes no memory.
    pub fn abandon(
        self,
        permits: Vec<Permit<C::Pass>>,
        ended: Vec<EndedPermit<C::Pass>>,
        permit: ConsumersPermit<C::Pass>,
    ) {
        spend_permits(permits);
        spend_ended(ended);
        let ConsumersPermit { pass: _, ended: _ } = permit;
        let SharedLane {
            carrier: _,
            producers: _,
        } = self;
    }

    // Whether each producer has ended and its end was taken.
    fn are_all(&self, ended: &[EndedPermit<C::Pass>], permit: &ConsumersPermit<C::Pass>) -> bool
        requires { IsConsumersPermit C.view C.is_of self.now permit.now }
        ensures all { result ≡ true
            → IsAll ended_number self.now.producers ended.now (taken C.view permit.now) }
        ensures lacks { result ≡ false
            → IsNotAll ended_number self.now.producers ended.now (taken C.view permit.now) }
    {
        for p in 0..self.producers {
            if !permit.ended.has(p) {
                return false;
            }
            if !has_ended(ended, p) {
                return false;
            }
        }
        true
    }

    // Hears a producer out: what it has sent is what was taken of it.
    fn hear_out(&self, pass: &mut C::Pass, ended: EndedPermit<C::Pass>)
        requires pass { C.is_of self.now.carrier pass.old
            × HasAllEnds self.now.producers (C.view pass.old) }
        requires ended { IsEndedPermit C.view C.is_of self.now ended }
        ensures pass { C.is_of self.now.carrier pass.new
            × HasAllEnds self.now.producers (C.view pass.new)
            × (list_of (C.view pass.new) ≡ list_of (C.view pass.old)) }
        ensures said { said C.view ended ≡ of ended.number (list_of (C.view pass.old)) }
    {
        let EndedPermit {
            pass: other,
            number,
        } = ended;
        self.carrier.absorb(pass, self.producers, other, number);
        self.carrier.look(pass);
    }

    // The ends of all these producers are heard.
    fn hear_all_out(&self, pass: &mut C::Pass, mut ended: Vec<EndedPermit<C::Pass>>)
        requires pass { C.is_of self.now.carrier pass.old
            × HasAllEnds self.now.producers (C.view pass.old) }
        requires ended { All (IsEndedPermit C.view C.is_of self.now) ended.items }
        ensures pass { C.is_of self.now.carrier pass.new
            × HasAllEnds self.now.producers (C.view pass.new)
            × (list_of (C.view pass.new) ≡ list_of (C.view pass.old)) }
        ensures said { All (λ e. said C.view e
            ≡ of e.number (list_of (C.view pass.old))) ended.items }
    {
        while let Some(e) = ended.pop() {
            self.hear_out(pass, e);
        }
        ended.destroy_empty();
    }
}

fn has_ended<P>(ended: &[EndedPermit<P>], number: u8) -> bool
    ensures { result ≡ list_any (λ e. e.number == number) ended.now }
{
    ended.iter().any(|e| e.number == number)
}

// How many producers there will be, so that each of their permits knows it.
fn announce<C: Carrier>(carrier: &C, pass: &mut C::Pass, producers: u8)
    requires { C.is_of carrier.now pass.old × (C.view pass.old ≡ consumer 0 0 [] None []) }
    ensures { C.is_of carrier.now pass.new × (C.view pass.new ≡ consumer producers 0 [] None []) }
{
    for announced in 0..producers {
        carrier.announce(pass, announced);
    }
}

fn spend_permits<P: Drop>(mut permits: Vec<Permit<P>>) {
    while let Some(one) = permits.pop() {
        let Permit { pass: _, number: _ } = one;
    }
    permits.destroy_empty();
}

fn spend_ended<P: Drop>(mut ended: Vec<EndedPermit<P>>) {
    while let Some(one) = ended.pop() {
        let EndedPermit { pass: _, number: _ } = one;
    }
    ended.destroy_empty();
}
