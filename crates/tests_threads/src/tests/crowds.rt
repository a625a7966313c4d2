//! Many workers at once: that they overlap, that nothing is lost among them, and that a lane with room for one entry refuses and loses nothing.

use super::gates::{PATIENCE, Passes, Turnstile};
use super::plans::{add_idle_workers, add_idler, add_worker, message_for, messages_for, plan_of};
use super::reports::{
    DELIVERED, FULL, accepted_by, accepted_in_all, has_told, replied_like, stored_by, texts_in_all,
};
use super::runs::{Reported, Stopped, outcome, run};
use running_house::Plan;
use std::alloc::{AllocError, Global};
use std::sync::Wait;
use std::thread::Threads;
use workers_sync::Actor;

// The most workers that a house may have.
const WORKERS: u8 = 8;

// No worker makes its first event before all have come to theirs: were one to end before another began, the gate would give up.
fn all_meet(alloc: Global, patience: u64) -> Result<Turnstile, AllocError> {
    let mut gate = Turnstile::new(alloc, patience);
    for who in 0..WORKERS {
        for until in 0..WORKERS {
            gate.hold(Actor::Worker(who), Passes::First, Actor::Worker(until), 0)?;
        }
    }
    Ok(gate)
}

// How often the gate gives up where so many workers come, of the eight that it waits for.
fn given_up_by<R: Threads + Wait + Sync>(
    rt: &R,
    alloc: Global,
    workers: usize,
    patience: u64,
) -> Result<u64, Stopped> {
    let mut plan = plan_of(alloc, &[b"alice".as_slice()], 1)?;
    add_idle_workers(alloc, workers, &mut plan)?;
    let gate = all_meet(alloc, patience)?;
    outcome(rt, alloc, &plan, &gate)?;
    Ok(gate.given_up())
}

#[test]
fn all_workers_are_there_at_once(rt: HostRuntime) {
    assert_eq!(rt; given_up_by(&rt, rt.alloc(), 8, PATIENCE), Ok(0));
}

// The one worker that is there waits for each of the seven that aren't, and goes on.
#[test]
fn a_gate_gives_up(rt: HostRuntime) {
    assert_eq!(rt; given_up_by(&rt, rt.alloc(), 1, 9), Ok(7));
}

// So many connections has each of them.
const CONNECTIONS: usize = 100;

// So many mailboxes has the house.
const MAILBOXES: usize = 64;

// So many copies come for alice, whose mailbox is number 0: of 800 that go to 64 mailboxes by turns.
const COPIES_OF_ALICE: u64 = 13;

// So many turns a session has at most.
const TURNS: u64 = 10_000_000;

// The user whose mailbox has this number, up to 99.
fn user_at(alloc: Global, number: usize) -> Result<Vec<u8>, AllocError> {
    if number == 0 {
        return Vec::from_slice(alloc, b"alice");
    }
    let (tens, ones) = (number / 10 % 10, number % 10);
    Vec::from_slice(alloc, &[b'u', b'0' + tens as u8, b'0' + ones as u8])
}

// Adds a worker whose connections bring one message each, to one mailbox after another from this one on.
fn add_postman(alloc: Global, first: usize, plan: &mut Plan) -> Result<(), AllocError> {
    let mut connections = Vec::new(alloc);
    for position in 0..CONNECTIONS {
        let number = first.wrapping_add(position) % MAILBOXES;
        let user = user_at(alloc, number)?;
        connections.push(message_for(alloc, &user)?)?;
    }
    plan.workers.push(connections)?;
    Ok(())
}

// A house with as many users, shards and workers as there may be, in which 800 copies come, and two sessions of alice that idle until they
// were shown all of hers.
fn crowd(alloc: Global) -> Result<Plan, AllocError> {
    let mut plan = plan_of(alloc, &[b"alice".as_slice()], 8)?;
    for number in 1..MAILBOXES {
        plan.config.mailboxes.push(user_at(alloc, number)?)?;
    }
    for worker in 0..usize::from(WORKERS) {
        add_postman(alloc, worker.wrapping_mul(CONNECTIONS), &mut plan)?;
    }
    plan.turns = TURNS;
    add_idler(alloc, 0, COPIES_OF_ALICE, &mut plan)?;
    add_idler(alloc, 0, COPIES_OF_ALICE, &mut plan)?;
    Ok(plan)
}

// No worker begins before both sessions have selected their mailbox: they ask to pass as they enter it, and then for each turn.
fn after_selection(alloc: Global) -> Result<Turnstile, AllocError> {
    let mut gate = Turnstile::new(alloc, PATIENCE);
    for worker in 0..WORKERS {
        for session in 0..2 {
            let until = Actor::Session(session);
            gate.hold(Actor::Worker(worker), Passes::First, until, 1)?;
        }
    }
    Ok(gate)
}

// Whether a session was greeted by an empty mailbox, was shown each of its messages, and logged out.
fn has_seen_all(report: &Reported, session: usize) -> bool {
    has_told(report, session, b"* 0 EXISTS\r\n")
        && has_told(report, session, b"* 13 EXISTS\r\n")
        && has_told(report, session, b"a2 OK IDLE completed\r\n")
        && has_told(report, session, b"a3 OK LOGOUT completed\r\n")
}

// What the report of the crowd has that it isn't to have.
fn unlike_crowd(alloc: Global, report: &Reported) -> Result<Option<&'static str>, AllocError> {
    if accepted_in_all(report) != 800 || texts_in_all(report) != 800 {
        return Ok(Some("copies"));
    }
    if accepted_by(report, 0) != 13 || accepted_by(report, 63) != 12 {
        return Ok(Some("copies of one mailbox"));
    }
    for worker in 0..usize::from(WORKERS) {
        if replied_like(report, worker, DELIVERED) != CONNECTIONS {
            return Ok(Some("replies"));
        }
        if stored_by(alloc, report, worker, 64)? != CONNECTIONS {
            return Ok(Some("stored"));
        }
    }
    if !has_seen_all(report, 0) || !has_seen_all(report, 1) {
        return Ok(Some("sessions"));
    }
    Ok(None)
}

fn see_crowd<R: Threads + Wait + Sync>(
    rt: &R,
    alloc: Global,
    plan: &Plan,
    gate: &Turnstile,
) -> Result<(Option<&'static str>, u64), Stopped> {
    let report = run(rt, alloc, plan, gate)?;
    let what = unlike_crowd(alloc, &report)?;
    Ok((what, gate.given_up()))
}

fn run_crowd<R: Threads + Wait + Sync>(
    rt: &R,
    alloc: Global,
) -> Result<(Option<&'static str>, u64), Stopped> {
    let plan = crowd(alloc)?;
    let gate = after_selection(alloc)?;
    see_crowd(rt, alloc, &plan, &gate)
}

#[test]
fn eight_workers_of_a_hundred_connections(rt: HostRuntime) {
    let seen = run_crowd(&rt, rt.alloc());
    assert_eq!(rt; seen, Ok((None, 0)));
}

// Eight workers that send so many messages each to one mailbox, whose lane has room for one entry.
fn narrow(alloc: Global, messages: usize) -> Result<Plan, AllocError> {
    let mut plan = plan_of(alloc, &[b"alice".as_slice()], 1)?;
    plan.config.depth = 1;
    for _ in 0..WORKERS {
        let bytes = messages_for(alloc, b"alice", messages)?;
        add_worker(alloc, bytes, &mut plan)?;
    }
    Ok(plan)
}

// Whether each worker was told of so many messages, of as many of them that they were delivered as its log has as stored, and of all others
// that the shard was full.
fn tell_of_each(alloc: Global, report: &Reported, messages: usize) -> Result<bool, AllocError> {
    for worker in 0..usize::from(WORKERS) {
        let stored = stored_by(alloc, report, worker, 1)?;
        if stored > messages || replied_like(report, worker, DELIVERED) != stored {
            return Ok(false);
        }
        if replied_like(report, worker, FULL) != messages - stored {
            return Ok(false);
        }
    }
    Ok(true)
}

// How many copies all workers' logs have as stored.
fn stored_in_all(alloc: Global, report: &Reported) -> Result<usize, AllocError> {
    let mut count: usize = 0;
    for worker in 0..usize::from(WORKERS) {
        count = count.saturating_add(stored_by(alloc, report, worker, 1)?);
    }
    Ok(count)
}

// Whether what is stored by the logs, accepted and there is so many copies.
fn are_all(alloc: Global, report: &Reported, copies: usize) -> Result<bool, AllocError> {
    Ok(
        stored_in_all(alloc, report)? == copies
            && accepted_in_all(report) == copies
            && texts_in_all(report) == copies,
    )
}

// Whether the workers were told rightly, and how many copies were accepted, which are all that are stored by the logs and that are there.
fn see_narrow<R: Threads + Wait + Sync>(
    rt: &R,
    alloc: Global,
    plan: &Plan,
    messages: usize,
    gate: &Turnstile,
) -> Result<(bool, usize), Stopped> {
    let report = run(rt, alloc, plan, gate)?;
    let copies = accepted_in_all(&report);
    let is_right = tell_of_each(alloc, &report, messages)? && are_all(alloc, &report, copies)?;
    Ok((is_right, copies))
}

fn run_narrow<R: Threads + Wait + Sync>(
    rt: &R,
    alloc: Global,
    messages: usize,
    gate: &Turnstile,
) -> Result<(bool, usize), Stopped> {
    let plan = narrow(alloc, messages)?;
    see_narrow(rt, alloc, &plan, messages, gate)
}

#[test]
fn a_lane_with_room_for_one(rt: HostRuntime) {
    let gate = Turnstile::new(rt.alloc(), 0);
    let seen = run_narrow(&rt, rt.alloc(), 25, &gate);
    assert_eq!(rt;
        seen.map(|(is_right, copies)| is_right && copies > 0),
        Ok(true)
    );
}

// The consumer takes nothing before each worker has tried to put its one copy: one goes in, and seven are refused.
fn after_all_puts(alloc: Global) -> Result<Turnstile, AllocError> {
    let mut gate = Turnstile::new(alloc, PATIENCE);
    for worker in 0..WORKERS {
        let until = Actor::Worker(worker);
        gate.hold(Actor::Consumer(0), Passes::All, until, 1)?;
    }
    Ok(gate)
}

#[test]
fn seven_of_eight_find_no_room(rt: HostRuntime) -> Result<(), AllocError> {
    let gate = after_all_puts(rt.alloc())?;
    let seen = run_narrow(&rt, rt.alloc(), 1, &gate);
    assert_eq!(rt; seen, Ok((true, 1)));
    assert_eq!(rt; gate.given_up(), 0);
    Ok(())
}
