//! Plans that are run: what peers send, which mailboxes there are, and what sessions do.

use house_shared::Guest;
use running_house::Plan;
use settings::{Config, Step};
use std::alloc::{AllocError, Global};

/// What each mailbox tells as its UIDVALIDITY.
const UIDVALIDITY: u32 = 7;

/// One message of one line for this user, and QUIT.
pub fn message_for(alloc: Global, user: &[u8]) -> Result<Vec<u8>, AllocError> {
    let mut bytes = opening(alloc)?;
    push_message(user, &mut bytes)?;
    bytes.extend_from_slice(b"QUIT\r\n")?;
    Ok(bytes)
}

/// A connection in which so many messages of one line come for this user, and then QUIT.
pub fn messages_for(alloc: Global, user: &[u8], count: usize) -> Result<Vec<u8>, AllocError> {
    let mut bytes = opening(alloc)?;
    for _ in 0..count {
        push_message(user, &mut bytes)?;
    }
    bytes.extend_from_slice(b"QUIT\r\n")?;
    Ok(bytes)
}

fn opening(alloc: Global) -> Result<Vec<u8>, AllocError> {
    Vec::from_slice(alloc, b"LHLO c.example\r\n")
}

fn push_message(user: &[u8], bytes: &mut Vec<u8>) -> Result<(), AllocError> {
    bytes.extend_from_slice(b"MAIL FROM:<s@a.example>\r\nRCPT TO:<")?;
    bytes.extend_from_slice(user)?;
    bytes.extend_from_slice(b"@example.org>\r\nDATA\r\nhi\r\n.\r\n")
}

/// A plan with these mailboxes in so many shards, and nobody who comes.
pub fn plan_of(alloc: Global, mailboxes: &[&[u8]], shards: u8) -> Result<Plan, AllocError> {
    let mut config = Config::new(alloc, mailboxes)?;
    config.shards = shards;
    config.uidvalidity = UIDVALIDITY;
    Ok(Plan {
        config,
        workers: Vec::new(alloc),
        sessions: Vec::new(alloc),
        turns: 0,
        closings: Vec::new(alloc),
    })
}

/// Adds a worker that serves one connection, in which these bytes come.
pub fn add_worker(alloc: Global, bytes: Vec<u8>, plan: &mut Plan) -> Result<(), AllocError> {
    let mut connections = Vec::new(alloc);
    connections.push(bytes)?;
    plan.workers.push(connections)?;
    Ok(())
}

/// Adds so many workers that serve no connection.
pub fn add_idle_workers(alloc: Global, count: usize, plan: &mut Plan) -> Result<(), AllocError> {
    for _ in 0..count {
        plan.workers.push(Vec::new(alloc))?;
    }
    Ok(())
}

/// Adds a session of the user with this number, which does nothing.
pub fn add_idle_session(alloc: Global, user: u8, plan: &mut Plan) -> Result<(), AllocError> {
    let steps = Vec::new(alloc);
    plan.sessions.push(Guest { user, steps })?;
    Ok(())
}

/// Adds a session of the user with this number, whose client sends each of these.
pub fn add_session(
    alloc: Global,
    user: u8,
    said: &[&[u8]],
    plan: &mut Plan,
) -> Result<(), AllocError> {
    let mut steps = Vec::new(alloc);
    for bytes in said {
        steps.push(Step::Say(Vec::from_slice(alloc, bytes)?))?;
    }
    plan.sessions.push(Guest { user, steps })?;
    Ok(())
}

/// Adds a session of the user with this number, which selects its INBOX, idles until it was shown so many changes, and logs out.
pub fn add_idler(alloc: Global, user: u8, count: u64, plan: &mut Plan) -> Result<(), AllocError> {
    let mut steps = Vec::new(alloc);
    let opening = Vec::from_slice(alloc, b"a1 SELECT INBOX\r\na2 IDLE\r\n")?;
    steps.push(Step::Say(opening))?;
    steps.push(Step::Await(count))?;
    let ending = Vec::from_slice(alloc, b"DONE\r\na3 LOGOUT\r\n")?;
    steps.push(Step::Say(ending))?;
    plan.sessions.push(Guest { user, steps })?;
    Ok(())
}

/// Two workers and two shards: worker 0 gets these bytes, worker 1 a message for bob, who is user 1. Alice is user 0.
pub fn two_workers(alloc: Global, first: &[u8]) -> Result<Plan, AllocError> {
    let words = [b"alice".as_slice(), b"bob".as_slice()];
    let mut plan = plan_of(alloc, &words, 2)?;
    add_worker(alloc, Vec::from_slice(alloc, first)?, &mut plan)?;
    add_worker(alloc, message_for(alloc, b"bob")?, &mut plan)?;
    Ok(plan)
}
