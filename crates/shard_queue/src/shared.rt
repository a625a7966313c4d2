//! The rule of a lane that threads share: what each permit knows, and what a put, a take and a permit
//! that joins or leaves make of it. The queue and the channel keep the same rule.

ghost use Rattle.std.specs.Prelude.{◌≡◌, ℕ, false, slice_index_or};

use crate::lane::Entry;
use crossbeam_channel::protocol::{
    Lesson as ChannelLesson, Outcome as ChannelOutcome, Protocol as ChannelProtocol,
};
use crossbeam_queue::protocol::{Join, Lesson, Outcome, Protocol, Split};
use std::collections::LinkedList;

/// What a permit knows of its lane. No value of it is ever made: permits carry it for contracts alone.
pub enum View<T> {
    /// The consumer's: how many producers there are, how many of them have their permits, what was taken,
    /// while the lane is closed the producer that was heard out last with all that it has sent, and all
    /// that had been put when it last took.
    Consumer(
        u64,
        u64,
        LinkedList<Entry<T>>,
        Option<(u64, LinkedList<Entry<T>>)>,
        LinkedList<Entry<T>>,
    ),
    /// A producer's: how many producers there are, its number, what it has sent, and all that had been
    /// put when it last put, that entry included.
    Producer(u64, u64, LinkedList<Entry<T>>, LinkedList<Entry<T>>),
    /// Of a producer that was heard out, or of no use.
    Spent,
}

/// There is one lane of which all is true that its permits know.
pub struct Merge;

impl<T> Protocol<Entry<T>, View<T>> for Merge {
    ghost use Rattle.std.specs.Prelude.{[], None};
    ghost use Rattle.shard_queue.specs.Shared.{IsSharedBy, consumer};

    ghost holds = { IsSharedBy };

    ghost first = { consumer 0 0 [] None [] };
}

impl<T> ChannelProtocol<Entry<T>, View<T>> for Merge {
    ghost use Rattle.std.specs.Prelude.{[], None};
    ghost use Rattle.shard_queue.specs.Shared.{IsSharedBy, consumer};

    ghost holds = { IsSharedBy };

    ghost first = { consumer 0 0 [] None [] };
}

/// The consumer's permit learns that there will be one more producer. This makes a permit of no use.
pub struct Announce;

impl<T> Split<View<T>> for Announce {
    ghost use Rattle.shard_queue.specs.Shared.{announcing, announced};

    ghost left = { announcing };

    ghost right = { announced };
}

/// The consumer's permit makes the permit of the next producer.
pub struct Hire;

impl<T> Split<View<T>> for Hire {
    ghost use Rattle.shard_queue.specs.Shared.{hiring, hired};

    ghost left = { hiring };

    ghost right = { hired };
}

/// The consumer's permit takes in that of a producer that has ended.
pub struct HearOut;

impl<T> Join<View<T>> for HearOut {
    ghost use Rattle.shard_queue.specs.Shared.{heard_out, spent};

    ghost both = { heard_out };

    ghost spent = { spent };
}

/// A producer sends an item or its end.
pub struct Put;

impl<T> Outcome<Entry<T>, View<T>> for Put {
    ghost use Rattle.shard_queue.specs.Shared.{Puts};

    ghost then = { Puts };
}

impl<T> Lesson<Entry<T>, View<T>> for Put {
    ghost use Rattle.shard_queue.specs.Shared.{Saw};

    ghost fact = { Saw };
}

impl<T> ChannelOutcome<Entry<T>, View<T>> for Put {
    ghost use Rattle.shard_queue.specs.Shared.{Puts};

    ghost then = { Puts };
}

impl<T> ChannelLesson<Entry<T>, View<T>> for Put {
    ghost use Rattle.shard_queue.specs.Shared.{Saw};

    ghost fact = { Saw };
}

/// The consumer takes the first entry that waits.
pub struct Take;

impl<T> Outcome<Entry<T>, View<T>> for Take {
    ghost use Rattle.shard_queue.specs.Shared.{Takes};

    ghost then = { Takes };
}

impl<T> Lesson<Entry<T>, View<T>> for Take {
    ghost use Rattle.shard_queue.specs.Shared.{Saw};

    ghost fact = { Saw };
}

impl<T> ChannelOutcome<Entry<T>, View<T>> for Take {
    ghost use Rattle.shard_queue.specs.Shared.{Takes};

    ghost then = { Takes };
}

impl<T> ChannelLesson<Entry<T>, View<T>> for Take {
    ghost use Rattle.shard_queue.specs.Shared.{Saw};

    ghost fact = { Saw };
}

// The marks of a consumer that has taken no end yet, one for each number that a producer can have.
pub(crate) fn no_marks() -> [bool; 256]
    ensures { (p : ℕ) → slice_index_or result p false ≡ false }
{
    [false; 256]
}
