//! What carries the entries of a lane that threads share: a queue, or the two ends of a channel.

use crate::lane::Entry;
use crate::shared::View;
use std::alloc::{AllocError, Global};
use std::sync::Wait;

/// A library's queue or channel under the rule of a shared lane. Each call needs a pass, which knows a part of the lane.
pub trait Carrier: Drop {
    ghost use Rattle.std.specs.Prelude.{◌≡◌, ◌+◌, ◌<◌, ℕ, List, [], None, true, IfOk, MatchResult};
    ghost use Rattle.shard_queue.specs.declared.lane.Entry.{Entry};
    ghost use Rattle.shard_queue.specs.declared.shared.View.{View};
    ghost use Rattle.shard_queue.specs.Closing.{HasAllEnds};
    ghost use Rattle.shard_queue.specs.Lane.{has_end};
    ghost use Rattle.shard_queue.specs.Shared.{FoundFull, MayPut, Puts, Saw, consumer, sender, list_of, seen_of, heard_out};

    /// What the entries carry.
    type Item: Drop;

    /// What a permit holds.
    type Pass: Drop;

    /// For how many entries there is room.
    ghost room: { Self → ℕ };

    /// The pass is one of this carrier.
    ghost is_of: { Self → Self.Pass → Type 0 };

    /// What the pass knows of the lane.
    ghost view: { Self.Pass → View Self.Item };

    /// An empty carrier, and the consumer's pass. An error where memory is refused.
    fn make(alloc: Global, capacity: usize) -> Result<(Self, Self::Pass), AllocError>
        requires { 0 < capacity }
        ensures { IfOk result (λ r. (room r.0 ≡ capacity) × is_of r.0 r.1
            × (view r.1 ≡ consumer 0 0 [] None [])) };

    /// The consumer's pass learns that there will be one more producer than the `announced` ones.
    fn announce(&self, pass: &mut Self::Pass, announced: u8)
        requires { is_of self.now pass.old × (view pass.old ≡ consumer announced 0 [] None []) }
        ensures { is_of self.now pass.new
            × (view pass.new ≡ consumer (announced + 1) 0 [] None []) };

    /// The pass of the next producer, which has this number.
    fn hire(&self, pass: &mut Self::Pass, producers: u8, number: u8) -> Self::Pass
        requires { is_of self.now pass.old × (view pass.old ≡ consumer producers number [] None [])
            × (number < producers) }
        ensures pass { is_of self.now pass.new
            × (view pass.new ≡ consumer producers (number + 1) [] None []) }
        ensures hired { is_of self.now result × (view result ≡ sender producers number [] []) };

    /// Puts the entry behind all that waits, or hands it back where there was no room.
    fn put<R: Wait>(
        &self,
        rt: &R,
        pass: &mut Self::Pass,
        producers: u8,
        entry: Entry<Self::Item>,
    ) -> Result<(), Entry<Self::Item>>
        requires { is_of self.now pass.old × MayPut producers entry (view pass.old) }
        ensures pass { is_of self.now pass.new }
        ensures put { MatchResult result (λ _. Puts (view pass.old) entry (view pass.new))
            (λ back. (back ≡ entry) × FoundFull (room self.now) (view pass.old) (view pass.new)) };

    /// The consumer's pass takes in that of a producer that has ended.
    fn absorb(&self, pass: &mut Self::Pass, producers: u8, ended: Self::Pass, number: u8)
        requires pass { is_of self.now pass.old × HasAllEnds producers (view pass.old) }
        requires ended { is_of self.now ended
            × (view ended ≡ sender producers number (list_of (view ended)) (seen_of (view ended)))
            × (has_end (list_of (view ended)) ≡ true) }
        ensures { is_of self.now pass.new
            × (view pass.new ≡ heard_out (view pass.old) (view ended)) };

    /// Learns what is true of the lane at one moment.
    fn look(&self, pass: &mut Self::Pass)
        requires { is_of self.now pass.old }
        ensures pass { is_of self.now pass.new × (view pass.new ≡ view pass.old) }
        ensures saw { (waiting : List (Entry Self.Item)) × Saw (view pass.old) waiting };
}
