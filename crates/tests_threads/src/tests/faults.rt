//! Plans with something wrong, of which nothing is run: what is told, and which of several is.

use super::gates::Turnstile;
use super::plans::{add_idle_session, add_idle_workers, plan_of};
use super::runs::{Stopped, outcome};
use running_house::{Plan, WorkFault};
use settings::ConfigFault;
use std::alloc::{AllocError, Global};
use std::sync::Wait;
use std::thread::Threads;

// A plan with these mailboxes, of which each keeps so many changes, with so many workers and with sessions of these users; and what comes of it.
#[derive(Clone, Copy)]
struct Case {
    name: &'static str,
    mailboxes: &'static [&'static [u8]],
    ring: usize,
    workers: usize,
    users: &'static [u8],
    fault: Option<ConfigFault>,
}

// User 0 is alice, user 1 is bob.
const USERS: &[&[u8]] = &[b"alice", b"alice/Work", b"bob"];

const TWICE: &[&[u8]] = &[b"alice", b"alice"];

const RIGHT: Case = Case {
    name: "as many workers and sessions as there may be",
    mailboxes: USERS,
    ring: 2048,
    workers: 8,
    users: &[0, 1, 0, 1],
    fault: None,
};

const CASES: &[Case] = &[
    RIGHT,
    Case {
        name: "a worker too many",
        workers: 9,
        fault: Some(ConfigFault::TooMany),
        ..RIGHT
    },
    Case {
        name: "a session too many of one user",
        users: &[0, 1, 0, 0],
        fault: Some(ConfigFault::TooMany),
        ..RIGHT
    },
    Case {
        name: "a user who is not there",
        users: &[0, 2],
        fault: Some(ConfigFault::BadName),
        ..RIGHT
    },
    Case {
        name: "too many workers and a user who is not there",
        workers: 9,
        users: &[2],
        fault: Some(ConfigFault::TooMany),
        ..RIGHT
    },
    Case {
        name: "too many sessions of a user who is not there",
        users: &[2, 2, 2],
        fault: Some(ConfigFault::TooMany),
        ..RIGHT
    },
    Case {
        name: "a mailbox that is named twice and a worker too many",
        mailboxes: TWICE,
        workers: 9,
        fault: Some(ConfigFault::Twice),
        ..RIGHT
    },
    Case {
        name: "a ring that is too small and a user who is not there",
        ring: 2047,
        users: &[2],
        fault: Some(ConfigFault::Ring),
        ..RIGHT
    },
];

fn plan_for(alloc: Global, case: Case) -> Result<Plan, AllocError> {
    let mut plan = plan_of(alloc, case.mailboxes, 1)?;
    plan.config.ring = case.ring;
    add_idle_workers(alloc, case.workers, &mut plan)?;
    for user in case.users {
        add_idle_session(alloc, *user, &mut plan)?;
    }
    Ok(plan)
}

// What comes of it.
fn outcome_of<R: Threads + Wait + Sync>(rt: &R, alloc: Global, case: Case) -> Result<(), Stopped> {
    let plan = plan_for(alloc, case)?;
    let gate = Turnstile::new(alloc, 0);
    outcome(rt, alloc, &plan, &gate)
}

// What is to come of it.
fn wanted_of(case: Case) -> Result<(), Stopped> {
    match case.fault {
        Some(fault) => Err(Stopped::Fault(WorkFault::Config(fault))),
        None => Ok(()),
    }
}

#[test]
fn what_is_wrong_with_a_plan(rt: HostRuntime) {
    for case in CASES {
        let came = outcome_of(&rt, rt.alloc(), *case);
        assert_eq!(rt; came, wanted_of(*case), "{}", case.name);
    }
}
