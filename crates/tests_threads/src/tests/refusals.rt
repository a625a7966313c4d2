//! Copies that a mailbox refuses: one that is full, and one whose UIDs are given. The report of such a run is told, since there was a cause.

use super::gates::Turnstile;
use super::plans::{add_worker, messages_for, plan_of};
use super::reports::{DELIVERED, accepted_in_all, replied_like};
use super::runs::{Stopped, run};
use running_house::Plan;
use std::alloc::{AllocError, Global};
use std::sync::Wait;
use std::thread::Threads;

// What a copy is answered whose mailbox had no room.
const MAILBOX_FULL: &[u8] = b"452 4.2.2 Mailbox full\r\n";

// What a copy is answered whose mailbox had no UID left.
const NO_UID_LEFT: &[u8] = b"554 5.2.0 No UID left\r\n";

// So many messages come, one behind the verdict on the other.
const MESSAGES: usize = 3;

// What a mailbox is short of.
#[derive(Clone, Copy)]
enum Bound {
    // It holds so many messages.
    Messages(usize),
    // Its UIDs begin there. The last that may be given is 4294967294.
    FirstUid(u32),
}

// One worker, to whom three messages come for one mailbox.
fn three_messages(alloc: Global, bound: Bound) -> Result<Plan, AllocError> {
    let mut plan = plan_of(alloc, &[b"alice".as_slice()], 1)?;
    match bound {
        Bound::Messages(messages) => plan.config.messages = messages,
        Bound::FirstUid(uid) => plan.config.first_uid = uid,
    }
    let bytes = messages_for(alloc, b"alice", MESSAGES)?;
    add_worker(alloc, bytes, &mut plan)?;
    Ok(plan)
}

// How many of the messages were delivered, how many were answered so instead, and how many copies the mailbox accepted.
fn fates<R: Threads + Wait + Sync>(
    rt: &R,
    alloc: Global,
    bound: Bound,
    refusal: &[u8],
) -> Result<(usize, usize, usize), Stopped> {
    let plan = three_messages(alloc, bound)?;
    let gate = Turnstile::new(alloc, 0);
    let report = run(rt, alloc, &plan, &gate)?;
    Ok((
        replied_like(&report, 0, DELIVERED),
        replied_like(&report, 0, refusal),
        accepted_in_all(&report),
    ))
}

#[test]
fn a_mailbox_with_room_for_one(rt: HostRuntime) {
    let seen = fates(&rt, rt.alloc(), Bound::Messages(1), MAILBOX_FULL);
    assert_eq!(rt; seen, Ok((1, 2, 1)));
}

#[test]
fn a_mailbox_with_two_uids_left(rt: HostRuntime) {
    let seen = fates(&rt, rt.alloc(), Bound::FirstUid(4_294_967_293), NO_UID_LEFT);
    assert_eq!(rt; seen, Ok((2, 1, 2)));
}
