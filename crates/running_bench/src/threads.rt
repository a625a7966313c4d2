//! The mail in the running house: each worker has its part of it, in connections one after another.

ghost use Rattle.std.specs.Prelude.{◌≡◌, ◌<◌, IfOk, length};
ghost use Rattle.settings.specs.Settings.{IsFrom, IsInRange};

use crate::mail::{config_of, opening, push_message};
use house_history::{Naming, Opened};
use running_house::{Plan, Report, WorkFault, run_house};
use std::alloc::{AllocError, Global};
use std::io::{self, Error, ErrorKind};
use std::marker::Brand;
use std::sync::Wait;
use std::thread::Threads;
use workers_sync::{Actor, Gate};

/// How many messages come in a connection.
const EACH: usize = 100;

/// What a run left.
#[derive(Clone, Copy)]
pub struct Found {
    /// How many copies were accepted.
    pub accepted: usize,
    /// How many messages there are.
    pub texts: usize,
}

/// Lets all pass.
#[derive(Drop)]
pub struct Open {}

impl Gate for Open {
    fn pass(&self, _who: Actor, _number: u64) {}
}

// A connection in which messages come, for one user after another from this number on.
fn connection(alloc: Global, first: usize) -> Result<Vec<u8>, AllocError> {
    let mut bytes = opening(alloc)?;
    for position in 0..EACH {
        push_message(first.wrapping_add(position), &mut bytes)?;
    }
    bytes.extend_from_slice(b"QUIT\r\n")?;
    Ok(bytes)
}

// So many connections, all from this number on.
fn connections(alloc: Global, first: u8, count: usize) -> Result<Vec<Vec<u8>>, AllocError> {
    let mut connections = Vec::new(alloc);
    for _ in 0..count {
        connections.push(connection(alloc, usize::from(first))?)?;
    }
    Ok(connections)
}

/// A plan in which so many copies come to so many shards by so many workers, each of which begins with another user. An error where
/// memory is refused.
pub fn plan_of(alloc: Global, workers: u8, shards: u8, copies: usize) -> Result<Plan, AllocError>
    requires some { 0 < workers }
    requires shards { IsFrom 1 8 shards }
    ensures range { IfOk result (λ plan. IsInRange plan.config) }
    ensures some { IfOk result (λ plan. 0 < length plan.workers.items) }
{
    let count = copies / EACH / usize::from(workers);
    let mut all = Vec::new(alloc);
    for worker in 0..workers {
        all.push(connections(alloc, worker, count)?)?;
    }
    Ok(Plan {
        config: config_of(alloc, shards)?,
        workers: all,
        sessions: Vec::new(alloc),
        turns: 0,
        closings: Vec::new(alloc),
    })
}

// How much stands in all these lists.
fn count_in<T>(lists: &[Vec<T>]) -> usize {
    let mut count: usize = 0;
    for list in lists {
        count = count.saturating_add(list.len());
    }
    count
}

// How many copies were accepted, and how many texts stand, in all mailboxes.
fn found_in<B: Naming>(report: &Report<B>) -> Found {
    Found {
        accepted: count_in(&report.accepted),
        texts: count_in(&report.texts),
    }
}

// What such a plan comes to, in a house whose history was just opened.
fn delivered<B: Naming + Send + Sync, R: Threads + Wait + Sync>(
    rt: &R,
    alloc: Global,
    history: Opened,
    plan: &Plan,
) -> io::Result<Found>
    requires history { history ≡ B.book }
    requires range { IsInRange plan.now.config }
    requires some { 0 < length plan.now.workers.items }
{
    match run_house::<B, R, Open>(rt, alloc, history, plan, &Open {}) {
        Ok(report) => Ok(found_in(&report)),
        Err(WorkFault::NoMemory) => Err(Error::from(ErrorKind::OutOfMemory)),
        Err(_) => Err(Error::from(ErrorKind::Other)),
    }
}

/// What such a plan comes to.
///
/// Errors: `OutOfMemory` where memory is refused, `Other` where the run has no report for another reason.
pub fn deliver_by_threads<R: Threads + Wait + Sync>(
    rt: &R,
    alloc: Global,
    plan: &Plan,
) -> io::Result<Found>
    requires range { IsInRange plan.now.config }
    requires some { 0 < length plan.now.workers.items }
{
    delivered::<Brand, R>(rt, alloc, Opened::new(), plan)
}
