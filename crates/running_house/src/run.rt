//! The whole run: made, run and compared, in this order.

ghost use Rattle.std.specs.Prelude.{◌≡◌, ◌<◌, ◌≤◌, None, IfErr, IfOk, length};
ghost use Rattle.settings.specs.Settings.{IsInRange};
ghost use Rattle.running_house.specs.Agree.{Agrees};
ghost use Rattle.running_house.specs.inner.Agree.{AreSizesFor};
ghost use Rattle.running_house.specs.Plan.{IsFault, most_producers, plan_fault, producers_in};

use crate::plan::{Plan, Report, WorkFault, directory_for};
use crate::report::report_of;
use crate::threads::run_threads;
use house_history::Naming;
use house_shared::{Opened, Sizes, Started, open};
use mailbox::{History, Limits};
use reckoning::abandon;
use std::alloc::Global;
use std::sync::Wait;
use std::thread::Threads;
use workers_sync::Gate;

// How large the parts of this plan's house are.
fn sizes_of(plan: &Plan) -> Sizes<'_>
    requires range { IsInRange plan.now.config }
    requires few { producers_in plan.now ≤ most_producers }
    ensures { AreSizesFor plan.now result }
{
    let config = &plan.config;
    Sizes {
        host: &config.host,
        max_message: config.max_message,
        memory: None,
        producers: (plan.workers.len() + plan.sessions.len()) as u8,
        depth: config.depth,
        uidvalidity: config.uidvalidity,
        first_uid: config.first_uid,
        limits: Limits {
            messages: config.messages,
            ring: config.ring,
            ring_max: config.ring_max,
        },
        history: History::Kept,
        turns: plan.turns,
        closings: plan.closings.as_slice(),
    }
}

/// Runs a plan in a house of its own, whose history was just opened, with a thread for each shard's consumer, each worker and each
/// session, in this order, and joins them all. Each actor asks the gate before each of its events.
/// A worker that closes a shard takes no more mail for its mailboxes, and says so; the others go on.
/// The shard's consumer has ended when each producer has closed it or come to its end.
///
/// Where the answer is Ok the report agrees with the plan and in itself; that is compared after the
/// joins, when each queue is closed.
///
/// Errors, the first that holds, but that want of memory may be told in place of any: `Config`, before
/// anything runs, of the first fault of the settings, in the order of `House::new`; `TooMany` for more than 8 workers, more than 255 workers and sessions
/// together, more sessions of one user than `config.sessions`, or a shard that is to be closed and
/// isn't there; `BadName` for a session whose user isn't there. `Spawn`
/// where a thread can't be made: no actor behind it begins. `NoMemory` where memory is refused, to an
/// actor too: it stops, and the others go on. `Torn` where a worker heard a verdict that it didn't
/// await, or a session did, an end is missing, or what the threads left doesn't agree.
pub fn run_house<B: Naming + Send + Sync, R: Threads + Wait + Sync, G: Gate + Sync>(
    rt: &R,
    alloc: Global,
    history: house_history::Opened,
    plan: &Plan,
    gate: &G,
) -> Result<Report<B>, WorkFault>
    // The history is the one that goes by this name.
    requires history { history ≡ B.book }

    // The settings are within their ranges, and there is a worker.
    requires range { IsInRange plan.now.config }
    requires some { 0 < length plan.now.workers.items }

    // Without an error the plan has no fault, and the report agrees with it and in itself: accounts, lists, closed queues.
    ensures agrees { IfOk result (Agrees plan.now) }
    ensures right { IfOk result (λ report. plan_fault plan.now ≡ None) }

    // `Config` tells the plan's own first fault; `Spawn` and `Torn` come only of a plan that has none; `NoMemory` says nothing of the plan.
    ensures fault { IfErr result (IsFault plan.now) }
{
    let directory = directory_for(alloc, plan)?;
    let sizes = sizes_of(plan);
    let Opened {
        shared,
        crew,
        baskets,
        session_parkers: _,
    } = open(alloc, history, directory, sizes, plan.sessions.as_slice())?;
    let (workers, sessions) = (plan.workers.as_slice(), plan.sessions.as_slice());
    let ran = run_threads(rt, &shared, gate, workers, sessions, crew);
    match ran.started {
        Started::All => report_of(alloc, plan, shared, ran, baskets),
        Started::Spawn => {
            abandon(alloc, shared, ran, baskets);
            Err(WorkFault::Spawn)
        }
        Started::NoMemory => {
            abandon(alloc, shared, ran, baskets);
            Err(WorkFault::NoMemory)
        }
    }
}
