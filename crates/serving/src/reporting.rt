//! What a server tells the people who run it: what it is asked for, what is made for that before the first thread, and the thread that writes
//! the log. What a line says stands in `server_report`.

ghost use Rattle.std.specs.Prelude.{IfErr};
ghost use Rattle.serving.specs.inner.Faults.{IsOfSocket};

use crate::fault::{ServeFault, device_or_memory};
use crate::site::Site;
use house_history::Naming;
use server_report::{Keeps, Log, Scribe};
use settings::Reporting;
use shared_consumers::LaneGroup;
use std::alloc::Global;
use std::io::Write;
use std::net::Net;
use std::sync::Wait;
use std::thread;
use std::thread::Threads;

// What is kept for that.
fn keeps_of(report: Reporting) -> Keeps {
    if report.log {
        return Keeps::Lines;
    }
    match report.status {
        Some(_) => Keeps::Counts,
        None => Keeps::Nothing,
    }
}

/// What happens is kept there; and where lines are, the room of whoever writes them.
#[derive(Drop)]
pub(crate) struct Records {
    pub(crate) log: Log,
    pub(crate) scribe: Option<Scribe>,
}

/// What is made for this before the first thread.
///
/// Errors: `Device` where the system has no socket, `NoMemory` where memory is refused.
pub(crate) fn records_for<R: Net>(
    rt: &R,
    alloc: Global,
    report: Reporting,
) -> Result<Records, ServeFault>
    ensures fault { IfErr result IsOfSocket }
{
    let log = match Log::new(rt, alloc, keeps_of(report)) {
        Ok(log) => log,
        Err(error) => return Err(device_or_memory(&error)),
    };
    if !log.keeps_lines() {
        return Ok(Records { log, scribe: None });
    }
    let scribe = Scribe::new(alloc)?;
    Ok(Records {
        log,
        scribe: Some(scribe),
    })
}

/// Who writes the log, where there is one, and where to.
#[derive(Drop)]
pub(crate) struct Writing<F> {
    pub(crate) scribe: Option<Scribe>,
    pub(crate) errors: F,
}

/// Starts the thread that writes the log, where there is one to write, and says whether it could be made.
pub(crate) fn start_writing<
    's,
    E,
    B: Naming + Send + Sync,
    H: LaneGroup + Send,
    R: Threads + Wait + Sync,
    F: Write + Drop + Send + 's,
>(scope: &thread::Scope<'s, E>, rt: &'s R, site: &'s Site<B, H>, writing: Writing<F>) -> bool {
    let Writing { scribe, errors } = writing;
    let Some(scribe) = scribe else {
        return true;
    };
    let log = &site.workplace.log;
    scope
        .spawn(move || scribe.write_all(rt, log, errors))
        .is_ok()
}
