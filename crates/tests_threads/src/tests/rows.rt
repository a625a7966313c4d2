//! Two workers that meet, and a session that reads what another thread delivered. What is replied is written in RFC 2033 and RFC 5321, and
//! what a session is told in RFC 9051.

use super::gates::{PATIENCE, Passes, Turnstile};
use super::plans::{add_session, message_for, two_workers};
use super::reports::{
    REPLIES, TEXT, first_key, has_accepted, has_replied, has_stored, has_text, have_said,
};
use super::runs::{Reported, Stopped, run};
use running_house::Plan;
use std::alloc::{AllocError, Global};
use std::sync::Wait;
use std::thread::Threads;
use workers_sync::Actor;

// No worker begins before the other, and consumer 0 takes nothing before worker 1 has put its copy and heard of it: its pass 0 is the put,
// its pass 1 the hearing, its pass 2 the end of its permit on the first lane.
fn meeting(alloc: Global) -> Result<Turnstile, AllocError> {
    let mut gate = Turnstile::new(alloc, PATIENCE);
    gate.hold(Actor::Worker(0), Passes::First, Actor::Worker(1), 0)?;
    gate.hold(Actor::Worker(1), Passes::First, Actor::Worker(0), 0)?;
    gate.hold(Actor::Consumer(0), Passes::All, Actor::Worker(1), 2)?;
    Ok(gate)
}

// What the report has of one user that it isn't to have: its number is that of the worker, of the mailbox and of the shard.
fn unlike_for(
    alloc: Global,
    report: &Reported,
    user: u8,
) -> Result<Option<&'static str>, AllocError> {
    let position = usize::from(user);
    let pairs = [(first_key(user), 1)];
    if !has_accepted(report, position, &pairs) {
        return Ok(Some("accepted"));
    }
    if !has_stored(alloc, report, position, user, &pairs)? {
        return Ok(Some("stored"));
    }
    if !has_stored(alloc, report, position, 1u8.saturating_sub(user), &[])? {
        return Ok(Some("stored elsewhere"));
    }
    if !has_text(report, position, 1, TEXT) {
        return Ok(Some("text"));
    }
    if !has_replied(report, position, REPLIES) {
        return Ok(Some("replies"));
    }
    Ok(None)
}

fn unlike(
    alloc: Global,
    report: &Reported,
    said: &[&[u8]],
) -> Result<Option<&'static str>, AllocError> {
    if report.accepted.len() != 2 || report.texts.len() != 2 {
        return Ok(Some("mailboxes"));
    }
    // Behind the workers' logs stand those of the sessions.
    let logs = said.len().saturating_add(2);
    if report.replies.len() != 2 || report.logs.len() != logs {
        return Ok(Some("workers"));
    }
    if !have_said(report, said) {
        return Ok(Some("sessions"));
    }
    if let Some(what) = unlike_for(alloc, report, 0)? {
        return Ok(Some(what));
    }
    unlike_for(alloc, report, 1)
}

// What the report of a run of two workers has that it isn't to have, where the sessions are to say this; and how often the gate gave up.
fn see<R: Threads + Wait + Sync>(
    rt: &R,
    alloc: Global,
    plan: &Plan,
    gate: &Turnstile,
    said: &[&[u8]],
) -> Result<(Option<&'static str>, u64), Stopped> {
    let report = run(rt, alloc, plan, gate)?;
    let what = unlike(alloc, &report, said)?;
    Ok((what, gate.given_up()))
}

fn meet<R: Threads + Wait + Sync>(
    rt: &R,
    alloc: Global,
) -> Result<(Option<&'static str>, u64), Stopped> {
    let plan = two_workers(alloc, &message_for(alloc, b"alice")?)?;
    let gate = meeting(alloc)?;
    see(rt, alloc, &plan, &gate, &[])
}

#[test]
fn two_workers_and_two_shards(rt: HostRuntime) {
    let seen = meet(&rt, rt.alloc());
    assert_eq!(rt; seen, Ok((None, 0)));
}

// What is asked of alice's INBOX, once her message is there.
const ASKED: [&[u8]; 2] = [b"a1 SELECT INBOX\r\n", b"a2 FETCH 1 BODY.PEEK[]\r\n"];

const SAID: &[u8] = b"* PREAUTH IMAP4rev2 server ready\r\n\
* FLAGS (\\Answered \\Flagged \\Deleted \\Seen \\Draft)\r\n\
* 1 EXISTS\r\n\
* OK [UIDVALIDITY 7] UIDs valid\r\n\
* OK [UIDNEXT 2] Predicted next UID\r\n\
* OK [PERMANENTFLAGS (\\Answered \\Flagged \\Deleted \\Seen \\Draft)] Flags kept\r\n\
* LIST () \"/\" INBOX\r\n\
a1 OK [READ-WRITE] SELECT completed\r\n\
* 1 FETCH (BODY[] {32}\r\n\
Return-Path: <s@a.example>\r\n\
hi\r\n\
)\r\n\
a2 OK FETCH completed\r\n";

// The same run with a session of alice, which is held until worker 0 has put its copy and heard of it.
fn meet_and_read<R: Threads + Wait + Sync>(
    rt: &R,
    alloc: Global,
) -> Result<(Option<&'static str>, u64), Stopped> {
    let mut plan = two_workers(alloc, &message_for(alloc, b"alice")?)?;
    add_session(alloc, 0, &ASKED, &mut plan)?;
    let mut gate = meeting(alloc)?;
    gate.hold(Actor::Session(0), Passes::All, Actor::Worker(0), 2)?;
    see(rt, alloc, &plan, &gate, &[SAID])
}

#[test]
fn threads_text(rt: HostRuntime) {
    let seen = meet_and_read(&rt, rt.alloc());
    assert_eq!(rt; seen, Ok((None, 0)));
}
