//! The lane's types, and what callers see of a lane. What it does is told in `calls`.

use std::collections::VecDeque;
use std::marker::Model;

/// What waits in a lane.
#[derive(Drop)]
pub enum Entry<T> {
    /// An item of this producer.
    Item(u8, T),
    /// This producer puts nothing more.
    End(u8),
}

/// A lane on one thread: the entries that wait, how many have room, and which producers may still
/// put.
#[derive(Drop)]
pub struct PlainLane<T> {
    pub(crate) entries: VecDeque<Entry<T>>,
    pub(crate) capacity: usize,
    pub(crate) live: Vec<bool>,
}

impl<T> Model for PlainLane<T> {
    ghost use Rattle.std.specs.Prelude.{◌≤◌};
    ghost use Rattle.std.specs.VecDeque.{deque_len, deque_capacity};
    ghost use Rattle.shard_queue.specs.PlainLane.{PlainLane};

    ghost Value = { PlainLane T };

    ghost view = { λ l. record { capacity = l.capacity; live = l.live.items; waiting = l.entries.items } };

    ghost invariant = { λ l. (l.capacity ≤ deque_capacity l.entries) × (deque_len l.entries ≤ l.capacity) };
}

/// The lane had no room; what was to be put comes back.
#[derive(Drop)]
pub struct Full<T>(pub T);

/// What a consumer took.
#[derive(Drop)]
pub enum Taken<T> {
    /// An item of this producer.
    Item(u8, T),
    /// This producer's end.
    End(u8),
    /// Nothing: the lane was empty.
    Empty,
}
