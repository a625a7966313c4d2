//! Workers that close a shard before one of their connections, while the others go on. What RCPT is answered then is written in RFC 3463,
//! 3.3 (a mailbox that is not taking mail for now).

use super::gates::{PATIENCE, Turnstile};
use super::plans::{add_worker, message_for, plan_of};
use super::reports::{REPLIES, TEXT, has_accepted, has_text};
use super::runs::{Reported, Stopped, run};
use delivery_token::CopyKey;
use lane_work::Closing;
use running_house::{Plan, WorkFault};
use settings::ConfigFault;
use std::alloc::{AllocError, Global};
use std::sync::Wait;
use std::thread::Threads;

// One message for alice and bob, of whom the first is refused.
const TO_BOTH: &[u8] = b"LHLO c.example\r\n\
MAIL FROM:<s@a.example>\r\n\
RCPT TO:<alice@example.org>\r\n\
RCPT TO:<bob@example.org>\r\n\
DATA\r\nhi\r\n.\r\nQUIT\r\n";

const TO_BOTH_TOLD: &[u8] = b"220 mx.example.org LMTP ready\r\n\
250-mx.example.org\r\n\
250-PIPELINING\r\n\
250-ENHANCEDSTATUSCODES\r\n\
250 8BITMIME\r\n\
250 2.1.0 Sender OK\r\n\
450 4.2.1 Shard closed\r\n\
250 2.1.5 Recipient OK\r\n\
354 Start mail input\r\n\
250 2.1.5 Delivered\r\n\
221 2.0.0 Bye\r\n";

// What each worker is to close, as a plan has it.
fn closings_of(alloc: Global, workers: &[&[Closing]]) -> Result<Vec<Vec<Closing>>, AllocError> {
    let mut closings = Vec::new(alloc);
    for worker in workers {
        closings.push(Vec::from_slice(alloc, worker)?)?;
    }
    Ok(closings)
}

// Alice is on shard 0, bob on shard 1. Worker 0 has a message for alice, and then one for both; worker 1 has one for bob.
fn plan(alloc: Global) -> Result<Plan, AllocError> {
    let words = [b"alice".as_slice(), b"bob".as_slice()];
    let mut plan = plan_of(alloc, &words, 2)?;
    let mut connections = Vec::new(alloc);
    connections.push(message_for(alloc, b"alice")?)?;
    connections.push(Vec::from_slice(alloc, TO_BOTH)?)?;
    plan.workers.push(connections)?;
    add_worker(alloc, message_for(alloc, b"bob")?, &mut plan)?;
    Ok(plan)
}

fn key(seat: u8, serial: u64) -> CopyKey {
    CopyKey {
        seat,
        serial,
        message: 0,
        recipient: 0,
    }
}

// Whether these were the replies to this connection of worker 0.
fn is_told(report: &Reported, connection: usize, wanted: &[u8]) -> bool {
    let Some(replies) = report.replies.first() else {
        return false;
    };
    match replies.get(connection) {
        Some(reply) => reply.as_slice() == wanted,
        None => false,
    }
}

// Whether bob's mailbox accepted the copies of both workers, in either order.
fn bob_has_both(report: &Reported) -> bool {
    let first = [(key(0, 1), 1), (key(1, 0), 2)];
    let second = [(key(1, 0), 1), (key(0, 1), 2)];
    has_accepted(report, 1, &first) || has_accepted(report, 1, &second)
}

fn unlike(report: &Reported) -> Option<&'static str> {
    if !is_told(report, 0, REPLIES) {
        return Some("replies before");
    }
    if !is_told(report, 1, TO_BOTH_TOLD) {
        return Some("replies behind");
    }
    if !has_accepted(report, 0, &[(key(0, 0), 1)]) || !has_text(report, 0, 1, TEXT) {
        return Some("alice");
    }
    if !bob_has_both(report) {
        return Some("bob");
    }
    None
}

// Worker 0 closes alice's shard before its second connection, twice, and bob's before one that never comes; worker 1 closes alice's before
// its first.
const BOTH_CLOSE_ALICES: &[&[Closing]] = &[
    &[
        Closing {
            connection: 1,
            shard: 0,
        },
        Closing {
            connection: 1,
            shard: 0,
        },
        Closing {
            connection: 7,
            shard: 1,
        },
    ],
    &[Closing {
        connection: 0,
        shard: 0,
    }],
];

fn one_is_closed<R: Threads + Wait + Sync>(
    rt: &R,
    alloc: Global,
) -> Result<Option<&'static str>, Stopped> {
    let mut plan = plan(alloc)?;
    plan.closings = closings_of(alloc, BOTH_CLOSE_ALICES)?;
    let report = run(rt, alloc, &plan, &Turnstile::new(alloc, PATIENCE))?;
    Ok(unlike(&report))
}

#[test]
fn one_shard_is_closed_while_the_other_goes_on(rt: HostRuntime) {
    let seen = one_is_closed(&rt, rt.alloc());
    assert_eq!(rt; seen, Ok(None));
}

// There are two shards.
const ONE_THAT_IS_NOT_THERE: &[&[Closing]] = &[
    &[],
    &[Closing {
        connection: 0,
        shard: 2,
    }],
];

fn one_is_not_there<R: Threads + Wait + Sync>(rt: &R, alloc: Global) -> Result<bool, Stopped> {
    let mut plan = plan(alloc)?;
    plan.closings = closings_of(alloc, ONE_THAT_IS_NOT_THERE)?;
    let came = run(rt, alloc, &plan, &Turnstile::new(alloc, PATIENCE));
    let wanted = WorkFault::Config(ConfigFault::TooMany);
    Ok(matches!(came, Err(Stopped::Fault(fault)) if fault == wanted))
}

#[test]
fn a_shard_that_is_not_there_is_one_too_many(rt: HostRuntime) {
    let seen = one_is_not_there(&rt, rt.alloc());
    assert_eq!(rt; seen, Ok(true));
}
