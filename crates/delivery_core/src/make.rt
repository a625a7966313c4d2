//! The parts of a new delivery side, each made of as many as the settings say. What they do later is
//! told in `steps`.

ghost use Rattle.std.specs.Prelude.{max, ◌≡◌, ◌<◌, length, replicate, IfOk, None};
ghost use Rattle.delivery_core.specs.Stands.{EachAt};
ghost use Rattle.delivery_core.specs.New.{IsNewBox, IsNewSeat, new_shard};

use crate::client::Client;
use crate::group::{Seat, Shard};
use delivery_token::{CopyKey, REPLY_ROOM, WorkerLog};
use mailbox::{History, Limits, Mailbox};
use shard_queue::PlainLane;
use std::alloc::{AllocError, Global};
use world::hand::Hand;

/// So many shards, each with an empty lane with this capacity, into which so many seats may put, and with nothing in its hand.
///
/// Errors: `AllocError` where memory was refused.
pub fn new_shards(
    alloc: Global,
    count: u8,
    capacity: usize,
    seats: u8,
) -> Result<Vec<Shard>, AllocError>
    ensures count { IfOk result (λ v. length v.items ≡ count) }
    ensures each { IfOk result (λ v. EachAt (λ i s. s ≡ new_shard capacity seats) v.items) }
{
    let mut shards = Vec::new(alloc);
    for _i in 0..count {
        shards.push(Shard {
            lane: PlainLane::new(alloc, capacity, seats)?,
            hand: Hand::Empty,
        })?;
    }
    Ok(shards)
}

/// So many seats, in their order, each with an empty reply lane, into which so many shards' consumers may put, with a log in which
/// nothing was noted, and with its least key.
///
/// Errors: `AllocError` where memory was refused.
pub fn new_seats(alloc: Global, count: u8, shards: u8) -> Result<Vec<Seat>, AllocError>
    ensures count { IfOk result (λ v. length v.items ≡ count) }
    ensures each { IfOk result (λ v. EachAt (λ p s. IsNewSeat p shards s) v.items) }
{
    let mut seats = Vec::new(alloc);
    for seat in 0..count {
        seats.push(Seat {
            replies: PlainLane::new(alloc, REPLY_ROOM, shards)?,
            heard: WorkerLog::new(alloc, seat),
            next: CopyKey {
                seat,
                serial: 0,
                message: 0,
                recipient: 0,
            },
        })?;
    }
    Ok(seats)
}

/// So many mailboxes, numbered from 0, with nothing in them and no client, which keep the copies that they take.
///
/// Errors: `AllocError` where memory was refused.
pub fn new_boxes(
    alloc: Global,
    count: u8,
    uidvalidity: u32,
    first_uid: u32,
    limits: Limits,
) -> Result<Vec<Mailbox>, AllocError>
    // The window has room for one change at least.
    requires { 0 < limits.ring }
    ensures count { IfOk result (λ v. length v.items ≡ count) }
    // Each has its position as its number, these settings, and an empty log.
    ensures each { IfOk result (λ v.
        EachAt (λ m b. IsNewBox m uidvalidity first_uid limits.messages limits.ring
        (max limits.ring limits.ring_max) b) v.items) }
{
    let mut boxes = Vec::new(alloc);
    for number in 0..count {
        let mailbox = Mailbox::new(alloc, number, uidvalidity, first_uid, limits, History::Kept)?;
        boxes.push(mailbox)?;
    }
    Ok(boxes)
}

/// So many places for clients, with none there.
///
/// Errors: `AllocError` where memory was refused.
pub fn no_clients(alloc: Global, count: usize) -> Result<Vec<Option<Client>>, AllocError>
    ensures { IfOk result (λ v. v.items ≡ replicate count None) }
{
    let mut clients = Vec::new(alloc);
    for _place in 0..count {
        clients.push(None)?;
    }
    Ok(clients)
}
