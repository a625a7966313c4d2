//! What a run is told and what it reports, and what may be wrong with a plan. Nothing is run here.

ghost use Rattle.std.specs.Prelude.{◌≡◌, ◌≢◌, ◌<◌, ◌≤◌, All, None, IfErr, IfOk, length, nat_le};
ghost use Rattle.std.specs.List.{list_any};
ghost use Rattle.settings.specs.Settings.{IsInRange, directory_for};
ghost use Rattle.house_shared.specs.Users.{user_numbered};
ghost use Rattle.running_house.specs.Plan.{IsFaultOf, after_settings, are_too_many, is_shard_missing, count_of, is_someone_missing, most_producers, most_workers, of_config, of_reckoning, plan_fault, producers_in};

use delivery_token::{CopyKey, Text, WorkerLog};
use envelope::Directory;
use house_history::{Front, Naming};
use house_shared::{Guest, MOST_PRODUCERS, is_nobody};
use lane_work::Closing;
use reckoning::{Closes, Fault};
use settings::{Config, ConfigFault, directory_of};
use std::alloc::{AllocError, Global};
use std::marker::Model;
use thiserror::Error;

/// The most workers of a running house.
const MOST_WORKERS: usize = 8;

/// What is to be run.
#[derive(Drop)]
pub struct Plan {
    /// The settings of the house.
    pub config: Config,
    /// For each worker, 1 to 8, the connections that it serves one after another: of each the bytes
    /// that its peer sends before it goes.
    pub workers: Vec<Vec<Vec<u8>>>,
    /// The sessions, at most `config.sessions` of one user, and at most 255 with the workers. A session's
    /// client may append messages as large as `config.max_message`.
    pub sessions: Vec<Guest>,
    /// So many turns a session has at most where it awaits changes.
    pub turns: u64,
    /// For each worker, by its number, the shards that it closes, and before which of its connections.
    /// A worker without a list closes none.
    pub closings: Vec<Vec<Closing>>,
}

/// What a run left.
#[derive(Drop)]
pub struct Report<B: Naming> {
    /// For each worker, for each of its connections, what was replied.
    pub replies: Vec<Vec<Vec<u8>>>,
    /// For each worker, and behind them for each session, the verdicts on its copies, in the order in
    /// which they were submitted.
    pub logs: Vec<WorkerLog>,
    /// For each mailbox, the copies that it accepted, with their UIDs.
    pub accepted: Vec<Vec<(CopyKey, u32)>>,
    /// For each mailbox, the messages that are there: UID and text.
    pub texts: Vec<Vec<(u32, Text)>>,
    /// For each session, what it said.
    pub sessions: Vec<Vec<u8>>,
    /// What was taken of each queue.
    pub closed: Closes<B>,
    /// How the history begins that all threads shared, with all that a worker or a session put and heard.
    pub history: Front<B>,
}

impl<B: Naming> Model for Report<B> {
    ghost use Rattle.running_house.specs.Report.{Report};

    ghost Value = { Report };

    ghost view = { λ r. record {
      replies = r.replies;
      logs = r.logs;
      accepted = r.accepted;
      texts = r.texts;
      sessions = r.sessions;
      closed = record { lanes = r.closed.lanes; channels = r.closed.channels };
      history = r.history;
    } };
}

/// Why there is no report. Of several causes the first in this order is told, but that want of memory may be told in place of any.
#[derive(Clone, Copy, Debug, PartialEq, Eq, Error)]
pub enum WorkFault {
    /// The settings are wrong, or there are too many workers or sessions, or a shard that is to be
    /// closed isn't there, or a session's user isn't.
    #[error("{0}")]
    Config(ConfigFault),
    /// A thread could not be made.
    #[error("Spawn")]
    Spawn,
    /// Memory was refused.
    #[error("NoMemory")]
    NoMemory,
    /// What the threads left doesn't agree.
    #[error("Torn")]
    Torn,
}

impl From<AllocError> for WorkFault {
    ghost use Rattle.running_house.specs.declared.plan.WorkFault.{WorkFault};

    ghost from_gives = { λ _ fault. fault ≡ WorkFault.NoMemory };

    fn from(_error: AllocError) -> WorkFault {
        WorkFault::NoMemory
    }
}

impl From<Fault> for WorkFault {
    ghost from_gives = { λ known fault. fault ≡ of_reckoning known };

    fn from(fault: Fault) -> WorkFault {
        match fault {
            Fault::Spawn => WorkFault::Spawn,
            Fault::NoMemory => WorkFault::NoMemory,
            Fault::Torn => WorkFault::Torn,
        }
    }
}

impl From<ConfigFault> for WorkFault {
    ghost from_gives = { λ config fault. fault ≡ of_config config };

    fn from(fault: ConfigFault) -> WorkFault {
        match fault {
            ConfigFault::NoMemory => WorkFault::NoMemory,
            fault => WorkFault::Config(fault),
        }
    }
}

// How many of these sessions are of this user.
fn count_of(guests: &[Guest], user: u8) -> usize
    ensures { result ≡ count_of user guests.now }
{
    guests.iter().filter(|guest| guest.user == user).count()
}

// Whether some user has more sessions than this.
fn are_too_many(guests: &[Guest], most: u8) -> bool
    ensures { result ≡ are_too_many most guests.now }
{
    guests
        .iter()
        .any(|guest| usize::from(most) < count_of(guests, guest.user))
}

// Whether some session's user isn't there.
fn is_someone_missing(directory: &Directory, guests: &[Guest]) -> bool
    ensures { result ≡ is_someone_missing directory.now.homes guests.now }
{
    guests.iter().any(|guest| is_nobody(directory, guest.user))
}

// Whether one of these closes a shard that isn't there.
fn is_beyond(closings: &[Closing], shards: u8) -> bool
    ensures { result ≡ list_any (λ c. nat_le shards c.shard) closings.now }
{
    closings.iter().any(|closing| shards <= closing.shard)
}

// Whether some worker is to close a shard that isn't there.
fn is_shard_missing(closings: &[Vec<Closing>], shards: u8) -> bool
    ensures { result ≡ is_shard_missing shards closings.now }
{
    closings.iter().any(|own| is_beyond(own.as_slice(), shards))
}

// What is wrong with the actors of a plan whose settings are right.
fn fault_of_actors(plan: &Plan, directory: &Directory) -> Option<ConfigFault>
    requires { directory.now ≡ directory_for plan.now.config }
    ensures is { result ≡ after_settings plan.now None }
    ensures few { result ≡ None
        → (length plan.now.workers.items ≤ most_workers)
        × (producers_in plan.now ≤ most_producers) }
    ensures guests { result ≡ None
        → All (λ v. user_numbered v.user directory.now.homes ≢ None) plan.now.sessions.items }
{
    if MOST_WORKERS < plan.workers.len() {
        return Some(ConfigFault::TooMany);
    }
    if MOST_PRODUCERS < plan.workers.len() + plan.sessions.len() {
        return Some(ConfigFault::TooMany);
    }
    if are_too_many(&plan.sessions, plan.config.sessions) {
        return Some(ConfigFault::TooMany);
    }
    if is_shard_missing(&plan.closings, plan.config.shards) {
        return Some(ConfigFault::TooMany);
    }
    if is_someone_missing(directory, &plan.sessions) {
        return Some(ConfigFault::BadName);
    }
    None
}

/// The directory that the house of this plan goes by.
///
/// Errors: `Config` of the first fault: those of the settings, in the order of `House::new`; `TooMany`
/// for more than 8 workers, more than 255 workers and sessions together, more sessions of one user than `config.sessions`, or a shard
/// that is to be closed and isn't there; `BadName`
/// for a session whose user isn't there. In place of any of them, and where nothing is wrong, `NoMemory` if memory is
/// refused.
pub(crate) fn directory_for(alloc: Global, plan: &Plan) -> Result<Directory, WorkFault>
    requires range { IsInRange plan.now.config }

    // Without an error nothing is wrong with the plan, and the directory is that of its settings.
    ensures directory { IfOk result (λ d. d ≡ directory_for plan.now.config) }
    ensures host { IfOk result (λ d. length plan.now.config.host.items < 256) }
    ensures right { IfOk result (λ d. plan_fault plan.now ≡ None) }
    ensures few { IfOk result (λ d. (length plan.now.workers.items ≤ most_workers)
        × (producers_in plan.now ≤ most_producers)) }
    ensures guests { IfOk result (λ d.
        All (λ v. user_numbered v.user d.homes ≢ None) plan.now.sessions.items) }

    // An error is `NoMemory`, or `Config` with the plan's own first fault.
    ensures fault { IfErr result (IsFaultOf plan.now) }
{
    let directory = directory_of(alloc, &plan.config)?;
    match fault_of_actors(plan, &directory) {
        Some(fault) => Err(WorkFault::Config(fault)),
        None => Ok(directory),
    }
}
