//! What a lane does. No call but `new` takes memory.

ghost use Rattle.std.specs.Prelude.{◌≡◌, ◌≢◌, ◌<◌, ◌≤◌, ◌++◌, ◌∷◌, [], true, false, None, IfOk, OnOk, MatchResult, length, replicate, slice_set, ◌↔◌};
ghost use Rattle.shard_queue.specs.declared.lane.Entry.TheVariants as entries;
ghost use Rattle.shard_queue.specs.Lane.{Puts, Takes, empty_lane};
ghost use Rattle.shard_queue.specs.Plain.{Makes, MayPutMore, StandsForLane, before_taking, taken_entry, starts_with_item};

use crate::lane::{Entry, Full, PlainLane, Taken};
use std::alloc::{AllocError, Global};
use std::collections::VecDeque;

impl<T: Drop> PlainLane<T> {
    /// An empty lane with room for `capacity` entries, where each of the producers 0 to
    /// `producers - 1` may put. An error where memory is refused.
    pub fn new(alloc: Global, capacity: usize, producers: u8) -> Result<PlainLane<T>, AllocError>
        ensures empty { IfOk result (λ l.
            l ≡ record { capacity = capacity; live = replicate producers true; waiting = [] }) }
        ensures stands { IfOk result (λ l. StandsForLane producers capacity l empty_lane) }
    {
        let entries = VecDeque::with_capacity(alloc, capacity)?;
        let live = Vec::from_elem(alloc, true, usize::from(producers))?;
        Ok(PlainLane {
            entries,
            capacity,
            live,
        })
    }

    /// Whether `producer` is a producer that has not put its end.
    pub fn is_live(&self, producer: u8) -> bool
        ensures { result ≡ true ↔ MayPutMore self.now.live producer }
    {
        match self.live.get(usize::from(producer)) {
            Some(live) => *live,
            None => false,
        }
    }

    /// Whether the first entry that waits is an item.
    pub fn has_item(&self) -> bool
        ensures { result ≡ starts_with_item self.now.waiting }
    {
        match self.entries.front() {
            Some(Entry::Item(_, _)) => true,
            _ => false,
        }
    }

    /// Whether as many entries wait as there is room for.
    pub fn is_full(&self) -> bool
        ensures { result ≡ true ↔ (self.now.capacity ≤ length self.now.waiting) }
    {
        self.entries.len() >= self.capacity
    }

    /// Puts an item behind all that waits. Full exactly where as many entries wait as there is
    /// room for; the lane is then unchanged, and the item comes back.
    pub fn put(&mut self, producer: u8, item: T) -> Result<(), Full<T>>
        // It is a producer of the lane that has not ended.
        requires live { MayPutMore self.old.live producer }
        // Ok where there is room: the item waits behind all others. Else it comes back, and nothing has changed.
        ensures put { MatchResult result
            (λ _. (length self.old.waiting < self.old.capacity)
            × (self.new ≡ record self.old {
              waiting = self.old.waiting ++ entries.Item producer item
                  ∷ [];
            }))
            (λ back. (back.0 ≡ item) × (length self.old.waiting ≡ self.old.capacity)
            × (self.new ≡ self.old)) }
        // After Ok: from each lane for which it stood, a legal move leads to one for which it stands.
        ensures moves { OnOk result (Makes self.old (Puts (entries.Item producer item)) self.new) }
    {
        if self.entries.len() == self.capacity {
            return Err(Full(item));
        }
        self.entries.push_back_reserved(Entry::Item(producer, item));
        Ok(())
    }

    /// Puts the producer's end behind all that waits, after which it may put nothing more. Full as
    /// for an item; the lane is then unchanged.
    pub fn end(&mut self, producer: u8) -> Result<(), Full<()>>
        // It is a producer of the lane that has not ended.
        requires live { MayPutMore self.old.live producer }
        // Ok where there is room: the end waits behind all others, and the producer may put no more. Else nothing has changed.
        ensures put { MatchResult result
            (λ _. (length self.old.waiting < self.old.capacity)
            × (self.new ≡ record self.old {
              waiting = self.old.waiting ++ entries.End producer ∷ [];
              live = slice_set self.old.live producer false;
            }))
            (λ _. (length self.old.waiting ≡ self.old.capacity) × (self.new ≡ self.old)) }
        // After Ok: from each lane for which it stood, a legal move leads to one for which it stands.
        ensures moves { OnOk result (Makes self.old (Puts (entries.End producer)) self.new) }
    {
        if self.entries.len() == self.capacity {
            return Err(Full(()));
        }
        self.entries.push_back_reserved(Entry::End(producer));
        if let Some(live) = self.live.get_mut(usize::from(producer)) {
            *live = false;
        }
        Ok(())
    }

    /// Takes the first entry that waits. Empty exactly where nothing waits.
    pub fn take(&mut self) -> Taken<T>
        // What was taken stood before all that waits now; nothing else has changed.
        ensures taken { self.old
            ≡ record self.new { waiting = before_taking result self.new.waiting } }
        // Empty only where nothing waited.
        ensures empty { taken_entry result ≡ None → self.old.waiting ≡ [] }
        // Where something was taken: from each lane for which it stood, a legal move leads to one for which it stands.
        ensures moves { taken_entry result ≢ None → Makes self.old Takes self.new }
    {
        match self.entries.pop_front() {
            Some(Entry::Item(producer, item)) => Taken::Item(producer, item),
            Some(Entry::End(producer)) => Taken::End(producer),
            None => Taken::Empty,
        }
    }
}
