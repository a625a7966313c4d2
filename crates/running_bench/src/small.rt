//! A small plan, run, and its report printed: two workers bring a message each to users in two shards, and a session of one of them
//! comes and goes. No time is taken here.

ghost use Rattle.std.specs.Prelude.{◌≡◌, ◌<◌, IfOk, length};
ghost use Rattle.settings.specs.Settings.{IsInRange};

use crate::threads::Open;
use delivery_token::{CopyKey, Text};
use house_history::{Naming, Opened};
use house_shared::Guest;
use running_house::{Plan, Report, run_house};
use settings::{Config, Step};
use std::alloc::{AllocError, Global};
use std::io::{self, Error, ErrorKind};
use std::marker::Brand;
use std::sync::Wait;
use std::thread::Threads;

// Who has a mailbox, each in a shard of its own.
const USERS: [&[u8]; 2] = [b"alice", b"bob"];

// A connection in which one message comes for this user.
fn message_for(alloc: Global, user: &[u8]) -> Result<Vec<u8>, AllocError> {
    let mut bytes = Vec::from_slice(
        alloc,
        b"LHLO c.example\r\nMAIL FROM:<s@a.example>\r\nRCPT TO:<",
    )?;
    bytes.extend_from_slice(user)?;
    bytes.extend_from_slice(b"@example.org>\r\nDATA\r\nhi\r\n.\r\nQUIT\r\n")?;
    Ok(bytes)
}

// A worker that serves one connection.
fn worker_for(alloc: Global, user: &[u8]) -> Result<Vec<Vec<u8>>, AllocError> {
    let mut connections = Vec::new(alloc);
    connections.push(message_for(alloc, user)?)?;
    Ok(connections)
}

// A session of alice, who is user 0: it is greeted, and logs out.
fn guest(alloc: Global) -> Result<Guest, AllocError> {
    let mut steps = Vec::new(alloc);
    steps.push(Step::Say(Vec::from_slice(alloc, b"a1 LOGOUT\r\n")?))?;
    Ok(Guest { user: 0, steps })
}

/// The plan. An error where memory is refused.
pub fn small_plan(alloc: Global) -> Result<Plan, AllocError>
    ensures range { IfOk result (λ plan. IsInRange plan.config) }
    ensures some { IfOk result (λ plan. 0 < length plan.workers.items) }
{
    let mut config = Config::new(alloc, &USERS)?;
    config.shards = 2;
    let mut sessions = Vec::new(alloc);
    sessions.push(guest(alloc)?)?;
    let mut workers = Vec::new(alloc);
    workers.push(worker_for(alloc, USERS[0])?)?;
    workers.push(worker_for(alloc, USERS[1])?)?;
    Ok(Plan {
        config,
        workers,
        sessions,
        turns: 0,
        closings: Vec::new(alloc),
    })
}

// What each worker's connections were replied.
fn print_workers<B: Naming, T: AllocGlobal + Print>(rt: &T, report: &Report<B>) -> io::Result<()> {
    for worker in 0..report.replies.len() {
        for reply in &report.replies[worker] {
            println!(rt; "worker {worker}: {} bytes of replies", reply.len())?;
        }
    }
    Ok(())
}

// What each mailbox accepted.
fn print_accepted<T: AllocGlobal + Print>(
    rt: &T,
    mailbox: usize,
    pairs: &[(CopyKey, u32)],
) -> io::Result<()> {
    for pair in pairs {
        let (key, uid) = (pair.0, pair.1);
        println!(rt;
            "mailbox {mailbox}: UID {uid} is recipient {} of message {} of connection {} of worker {}",
            key.recipient, key.message, key.serial, key.seat
        )?;
    }
    Ok(())
}

// And what is there.
fn print_texts<T: AllocGlobal + Print>(
    rt: &T,
    mailbox: usize,
    texts: &[(u32, Text)],
) -> io::Result<()> {
    for row in texts {
        println!(rt;
            "mailbox {mailbox}: UID {} has {} bytes",
            row.0,
            row.1.as_slice().len()
        )?;
    }
    Ok(())
}

// The mailboxes, one after another.
fn print_mailboxes<B: Naming, T: AllocGlobal + Print>(
    rt: &T,
    report: &Report<B>,
) -> io::Result<()> {
    for mailbox in 0..report.accepted.len() {
        print_accepted(rt, mailbox, report.accepted[mailbox].as_slice())?;
    }
    for mailbox in 0..report.texts.len() {
        print_texts(rt, mailbox, report.texts[mailbox].as_slice())?;
    }
    Ok(())
}

// The whole report.
fn print_report<B: Naming, T: AllocGlobal + Print>(rt: &T, report: &Report<B>) -> io::Result<()> {
    print_workers(rt, report)?;
    print_mailboxes(rt, report)?;
    for session in 0..report.sessions.len() {
        println!(rt;
            "session {session}: {} bytes",
            report.sessions[session].len()
        )?;
    }
    println!(rt;
        "{} lanes and {} reply channels are closed",
        report.closed.lanes.len(),
        report.closed.channels.len()
    )
}

// Runs a plan in a house whose history was just opened, and prints its report.
fn run_named<B: Naming + Send + Sync, T: AllocGlobal + Print + Eprint + Threads + Wait + Sync>(
    rt: &T,
    history: Opened,
    plan: &Plan,
) -> io::Result<()>
    requires history { history ≡ B.book }
    requires range { IsInRange plan.now.config }
    requires some { 0 < length plan.now.workers.items }
{
    match run_house::<B, T, Open>(rt, rt.alloc(), history, plan, &Open {}) {
        Ok(report) => print_report(rt, &report),
        Err(fault) => {
            eprintln!(rt; "no report: {fault}")?;
            Err(Error::from(ErrorKind::Other))
        }
    }
}

/// Runs a plan, and prints its report.
///
/// Errors: `Other` where the run has no report, which is then said on standard error; else those of printing.
pub fn run_and_print<T: AllocGlobal + Print + Eprint + Threads + Wait + Sync>(
    rt: &T,
    plan: &Plan,
) -> io::Result<()>
    requires range { IsInRange plan.now.config }
    requires some { 0 < length plan.now.workers.items }
{
    run_named::<Brand, T>(rt, Opened::new(), plan)
}
