//! Runs of plans that may be run: a plan whose settings are out of their ranges, or that has no worker, is not.

ghost use Rattle.std.specs.Prelude.{◌≡◌, ◌<◌, true, length};
ghost use Rattle.settings.specs.Settings.{IsInRange};

use delivery_token::{CopyKey, Text, WorkerLog};
use house_history::{Naming, Opened};
use running_house::{Plan, Report, WorkFault, run_house};
use std::alloc::{AllocError, Global};
use std::marker::Brand;
use std::sync::Wait;
use std::thread::Threads;
use workers_sync::Gate;

/// Why there is no report.
#[derive(Clone, Copy, Debug, PartialEq, Eq)]
pub enum Stopped {
    /// The plan may not be run.
    OutOfRange,
    /// The run came to this.
    Fault(WorkFault),
    /// The test itself wanted memory.
    NoMemory,
}

impl From<AllocError> for Stopped {
    fn from(_error: AllocError) -> Stopped {
        Stopped::NoMemory
    }
}

// Whether the plan may be run.
fn is_in_range(plan: &Plan) -> bool
    ensures range { result ≡ true → IsInRange plan.now.config }
    ensures some { result ≡ true → 0 < length plan.now.workers.items }
{
    if !plan.config.is_in_range() {
        return false;
    }
    if plan.workers.is_empty() {
        return false;
    }
    true
}

/// What of a report is looked at here, whatever its history is called.
#[derive(Drop)]
pub struct Reported {
    pub replies: Vec<Vec<Vec<u8>>>,
    pub logs: Vec<WorkerLog>,
    pub accepted: Vec<Vec<(CopyKey, u32)>>,
    pub texts: Vec<Vec<(u32, Text)>>,
    pub sessions: Vec<Vec<u8>>,
}

fn looked_at<B: Naming>(report: Report<B>) -> Reported {
    let Report {
        replies,
        logs,
        accepted,
        texts,
        sessions,
        closed: _,
        history: _,
    } = report;
    Reported {
        replies,
        logs,
        accepted,
        texts,
        sessions,
    }
}

// The report of a run in a house whose history was just opened, or why there is none.
fn run_named<B: Naming + Send + Sync, R: Threads + Wait + Sync, G: Gate + Sync>(
    rt: &R,
    alloc: Global,
    history: Opened,
    plan: &Plan,
    gate: &G,
) -> Result<Reported, Stopped>
    requires history { history ≡ B.book }
{
    if !is_in_range(plan) {
        return Err(Stopped::OutOfRange);
    }
    match run_house::<B, R, G>(rt, alloc, history, plan, gate) {
        Ok(report) => Ok(looked_at(report)),
        Err(fault) => Err(Stopped::Fault(fault)),
    }
}

/// The report of a run, or why there is none.
pub fn run<R: Threads + Wait + Sync, G: Gate + Sync>(
    rt: &R,
    alloc: Global,
    plan: &Plan,
    gate: &G,
) -> Result<Reported, Stopped> {
    run_named::<Brand, R, G>(rt, alloc, Opened::new(), plan, gate)
}

/// What comes of a run whose report is no matter.
pub fn outcome<R: Threads + Wait + Sync, G: Gate + Sync>(
    rt: &R,
    alloc: Global,
    plan: &Plan,
    gate: &G,
) -> Result<(), Stopped> {
    let _report = run(rt, alloc, plan, gate)?;
    Ok(())
}
