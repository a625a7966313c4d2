//! A peer that goes in the middle of what it sends: the run is a whole one, and its message is there where it was ended.

use super::gates::Turnstile;
use super::plans::{message_for, two_workers};
use super::reports::{accepted_by, first_key, has_accepted};
use super::runs::{Reported, Stopped, run};
use running_house::Plan;
use std::alloc::Global;
use std::sync::Wait;
use std::thread::Threads;

// How many copies alice accepted, where bob accepted his.
fn accepted_in(report: &Reported) -> Option<usize> {
    if !has_accepted(report, 1, &[(first_key(1), 1)]) {
        return None;
    }
    Some(accepted_by(report, 0))
}

fn see<R: Threads + Wait + Sync>(
    rt: &R,
    alloc: Global,
    plan: &Plan,
) -> Result<Option<usize>, Stopped> {
    let gate = Turnstile::new(alloc, 0);
    let report = run(rt, alloc, plan, &gate)?;
    Ok(accepted_in(&report))
}

// The same of a run in which worker 0 gets these bytes.
fn accepted_of<R: Threads + Wait + Sync>(
    rt: &R,
    alloc: Global,
    bytes: &[u8],
) -> Result<Option<usize>, Stopped> {
    let plan = two_workers(alloc, bytes)?;
    see(rt, alloc, &plan)
}

// What stands behind the line of the dot.
const REST: &[u8] = b"QUIT\r\n";

#[test]
fn a_message_is_cut_at_each_position(rt: HostRuntime) -> Result<(), Stopped> {
    let alloc = rt.alloc();
    let whole = message_for(alloc, b"alice")?;
    let ended = whole.len().saturating_sub(REST.len());
    for cut in 0..=whole.len() {
        let wanted = if cut >= ended { 1 } else { 0 };
        let bytes = whole.as_slice().get(..cut).unwrap_or(&[]);
        let seen = accepted_of(&rt, alloc, bytes);
        assert_eq!(rt; seen, Ok(Some(wanted)), "cut at {cut}");
    }
    Ok(())
}
