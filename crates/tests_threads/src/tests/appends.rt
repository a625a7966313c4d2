//! A session whose client appends messages, beside a worker that brings mail to the same mailbox. What it is answered is written in RFC 9051,
//! 6.3.12 and 7.1.

use super::gates::{PATIENCE, Passes, Turnstile};
use super::plans::{add_session, add_worker, messages_for, plan_of};
use super::reports::{DELIVERED, has_accepted, has_stored, have_said, replied_like};
use super::runs::{Reported, Stopped, run};
use super::support::key;
use delivery_token::CopyKey;
use running_house::Plan;
use std::alloc::{AllocError, Global};
use std::sync::Wait;
use std::thread::Threads;
use workers_sync::Actor;

// Two messages; behind the second one's bytes there is nothing more.
const SAID: [&[u8]; 2] = [
    b"a1 APPEND INBOX {2+}\r\nm1\r\na2 NOOP\r\n",
    b"a3 APPEND INBOX (\\Seen) {2+}\r\nm2\r\n",
];

// The first UID of the session's messages is 3, behind the worker's two.
const TOLD: &[u8] = b"* PREAUTH IMAP4rev2 server ready\r\n\
a1 OK [APPENDUID 7 3] APPEND completed\r\n\
a2 OK NOOP completed\r\n\
a3 OK [APPENDUID 7 4] APPEND completed\r\n";

// Alice alone: a worker brings her two messages, and her session appends two.
fn plan(alloc: Global) -> Result<Plan, AllocError> {
    let words = [b"alice".as_slice()];
    let mut plan = plan_of(alloc, &words, 1)?;
    add_worker(alloc, messages_for(alloc, b"alice", 2)?, &mut plan)?;
    add_session(alloc, 0, &SAID, &mut plan)?;
    Ok(plan)
}

// Whether these UIDs are each above the one before.
fn do_rise(pairs: &[(CopyKey, u32)]) -> bool {
    let mut last = 0;
    for pair in pairs {
        if pair.1 <= last {
            return false;
        }
        last = pair.1;
    }
    true
}

// Those of this seat among the copies that alice's mailbox accepted.
fn of_seat(alloc: Global, report: &Reported, seat: u8) -> Result<Vec<(CopyKey, u32)>, AllocError> {
    let mut own = Vec::new(alloc);
    let Some(pairs) = report.accepted.first() else {
        return Ok(own);
    };
    for pair in pairs {
        if pair.0.seat == seat {
            own.push(*pair)?;
        }
    }
    Ok(own)
}

// What the report has of this producer that it isn't to have: it sent two copies, each stands once, in their order, and its log says so.
fn unlike_for(
    alloc: Global,
    report: &Reported,
    seat: u8,
) -> Result<Option<&'static str>, AllocError> {
    let own = of_seat(alloc, report, seat)?;
    if own.len() != 2 || own[0].0 != key(seat, 0) || own[1].0 != key(seat, 1) {
        return Ok(Some("keys"));
    }
    if !do_rise(&own) {
        return Ok(Some("UIDs"));
    }
    if !has_stored(alloc, report, usize::from(seat), 0, &own)? {
        return Ok(Some("log"));
    }
    Ok(None)
}

fn unlike(alloc: Global, report: &Reported) -> Result<Option<&'static str>, AllocError> {
    if report.logs.len() != 2 || report.replies.len() != 1 || report.sessions.len() != 1 {
        return Ok(Some("producers"));
    }
    if replied_like(report, 0, DELIVERED) != 2 {
        return Ok(Some("replies"));
    }
    if let Some(what) = unlike_for(alloc, report, 0)? {
        return Ok(Some(what));
    }
    unlike_for(alloc, report, 1)
}

// Whether the mailbox has this text under this UID.
fn has_message(report: &Reported, uid: u32, text: &[u8]) -> bool {
    let Some(texts) = report.texts.first() else {
        return false;
    };
    texts
        .iter()
        .any(|row| row.0 == uid && row.1.as_slice() == text)
}

// The session is held until the worker has heard of both its copies: its passes 0 to 3 are puts and hearings, its pass 4 the end of its
// seat.
fn one_after_the_other<R: Threads + Wait + Sync>(
    rt: &R,
    alloc: Global,
) -> Result<Option<&'static str>, Stopped> {
    let plan = plan(alloc)?;
    let mut gate = Turnstile::new(alloc, PATIENCE);
    gate.hold(Actor::Session(0), Passes::All, Actor::Worker(0), 4)?;
    let report = run(rt, alloc, &plan, &gate)?;
    let pairs = [
        (key(0, 0), 1),
        (key(0, 1), 2),
        (key(1, 0), 3),
        (key(1, 1), 4),
    ];
    if !has_accepted(&report, 0, &pairs) {
        return Ok(Some("accepted"));
    }
    if !have_said(&report, &[TOLD]) {
        return Ok(Some("told"));
    }
    // An appended text has no line before it.
    if !has_message(&report, 3, b"m1") || !has_message(&report, 4, b"m2") {
        return Ok(Some("texts"));
    }
    Ok(unlike(alloc, &report)?)
}

#[test]
fn a_session_appends_behind_a_worker(rt: HostRuntime) {
    let seen = one_after_the_other(&rt, rt.alloc());
    assert_eq!(rt; seen, Ok(None));
}

// Nobody is held.
fn side_by_side<R: Threads + Wait + Sync>(
    rt: &R,
    alloc: Global,
) -> Result<Option<&'static str>, Stopped> {
    let plan = plan(alloc)?;
    let gate = Turnstile::new(alloc, 0);
    let report = run(rt, alloc, &plan, &gate)?;
    Ok(unlike(alloc, &report)?)
}

#[test]
fn a_session_appends_beside_a_worker(rt: HostRuntime) {
    for _ in 0..8 {
        let seen = side_by_side(&rt, rt.alloc());
        assert_eq!(rt; seen, Ok(None));
    }
}
