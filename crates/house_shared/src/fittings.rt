//! What a house is made of, as far as it may be let go again: so it is made first, and where memory is
//! refused nothing has to be undone. What can't be let go stands in `stock`.

ghost use Rattle.std.specs.Prelude.{◌≡◌, ◌<◌, ◌≤◌, IfOk, [], length, map, vec_len};
ghost use Rattle.budget.specs.Limits.{limit_of};
ghost use Rattle.mailbox.specs.Mailbox.{Stands};
ghost use Rattle.house_shared.specs.inner.Making.{AreFittings, ArePapers};

use crate::bells::{Bells, hang_bells};
use crate::opening::Sizes;
use crate::shared::Guest;
use budget::Budget;
use crossbeam_utils::sync::{Parker, Unparker};
use delivery_token::{Job, WorkerLog};
use envelope::Directory;
use house_history::{Answer, Front, Letter, MailboxParts, Naming};
use lane_work::Closing;
use locked_mailbox::LockedMailbox;
use mailbox::Mailbox;
use shard_queue::{Closed, Entry, ReplyClosed};
use std::alloc::{AllocError, Global};
use std::sync::Mutex;
use workers_sync::{SessionBell, SessionParker};

/// Room for what the threads leave, of what may be let go.
#[derive(Drop)]
pub(crate) struct Papers<B: Naming> {
    /// For each producer, what it said: of a worker the replies to each connection, of a session one
    /// text.
    pub(crate) replies: Vec<Vec<Vec<u8>>>,
    /// For each producer, the verdicts that it heard.
    pub(crate) logs: Vec<WorkerLog>,
    /// For each consumer, the entries that it took.
    pub(crate) taken: Vec<Vec<Entry<Job>>>,
    /// For each lane, what was taken of it.
    pub(crate) lanes: Vec<Closed<Letter<B>>>,
    /// For each reply channel, the same.
    pub(crate) channels: Vec<ReplyClosed<Answer<B>>>,
}

/// What the shared state is made of beside the queues.
#[derive(Drop)]
pub(crate) struct Interior<B: Naming> {
    /// The house's name in replies.
    pub(crate) host: Vec<u8>,
    /// The mailboxes of its directory, empty.
    pub(crate) mailboxes: Vec<Mutex<LockedMailbox<B>>>,
    /// What rings each consumer.
    pub(crate) consumers: Vec<Unparker>,
    /// For each mailbox, what rings the sessions of its user.
    pub(crate) sessions: Vec<Vec<SessionBell>>,
    /// For each worker, the shards that it closes.
    pub(crate) closings: Vec<Vec<Closing>>,
    /// How the house's history began.
    pub(crate) front: Front<B>,
    /// What the texts of messages are charged to.
    pub(crate) budget: Budget,
}

/// All of a house that may be let go.
#[derive(Drop)]
pub(crate) struct Fittings<B: Naming> {
    pub(crate) interior: Interior<B>,
    /// Each consumer's own end of its bell.
    pub(crate) parkers: Vec<Parker>,
    /// Each session's own end of its bell.
    pub(crate) session_parkers: Vec<SessionParker>,
    pub(crate) papers: Papers<B>,
}

// The empty mailbox of this number.
fn make_mailbox(alloc: Global, number: u8, sizes: Sizes<'_>) -> Result<Mailbox, AllocError>
    requires ring { 0 < sizes.limits.ring }
    ensures numbers { IfOk result (λ m. (m.number ≡ number)
        × (m.uidvalidity ≡ sizes.entry.uidvalidity) × (m.first_uid ≡ sizes.entry.first_uid)) }
    ensures keeps { IfOk result (λ m. (m.limit ≡ sizes.entry.limits.messages)
        × (m.history ≡ sizes.entry.history)) }
    ensures empty { IfOk result (λ m. Stands m [] × (m.accepted ≡ [])) }
{
    let Sizes {
        uidvalidity,
        first_uid,
        limits,
        history,
        ..
    } = sizes;
    Mailbox::new(alloc, number, uidvalidity, first_uid, limits, history)
}

// So many empty mailboxes, each behind a lock, with its part of the house's history.
fn make_mailboxes<B: Naming>(
    alloc: Global,
    count: usize,
    sizes: Sizes<'_>,
    mut parts: MailboxParts<B>,
    front: &Front<B>,
) -> Result<Vec<Mutex<LockedMailbox<B>>>, AllocError>
    requires few { count ≤ 64 }
    requires parts { parts ≡ 0 }
    requires ring { 0 < sizes.limits.ring }
    ensures count { IfOk result (λ v. vec_len v ≡ count) }
{
    let mut mailboxes = Vec::with_capacity(alloc, count)?;
    for number in 0..count {
        let mailbox = make_mailbox(alloc, number as u8, sizes)?;
        let Some(part) = parts.take() else {
            unreachable!()
        };
        let seats = usize::from(sizes.producers);
        let locked = LockedMailbox::new(alloc, mailbox, part, front.again(), seats)?;
        mailboxes.push_reserved(Mutex::new(locked));
    }
    Ok(mailboxes)
}

// Room for what so many producers and consumers leave.
fn make_papers<B: Naming>(alloc: Global, producers: u8, shards: u8) -> Result<Papers<B>, AllocError>
    ensures { IfOk result (λ p. ArePapers producers shards p) }
{
    let (producers, shards) = (usize::from(producers), usize::from(shards));
    Ok(Papers {
        replies: Vec::with_capacity(alloc, producers)?,
        logs: Vec::with_capacity(alloc, producers)?,
        taken: Vec::with_capacity(alloc, shards)?,
        lanes: Vec::with_capacity(alloc, shards)?,
        channels: Vec::with_capacity(alloc, producers)?,
    })
}

// The shards that each worker closes, once more.
fn copied(alloc: Global, closings: &[Vec<Closing>]) -> Result<Vec<Vec<Closing>>, AllocError>
    ensures { IfOk result (λ v. map (λ c. c.items) v.items ≡ map (λ c. c.items) closings.now) }
{
    let mut copies = Vec::with_capacity(alloc, closings.len())?;
    for one in closings {
        copies.push(Vec::from_slice(alloc, one)?)?;
    }
    Ok(copies)
}

// What the texts of messages are charged to, which may have so many bytes together.
fn budget_of(alloc: Global, limit: Option<u64>) -> Result<Budget, AllocError>
    ensures { IfOk result (λ b. limit_of b ≡ limit) }
{
    match limit {
        Some(limit) => Budget::new(alloc, limit),
        None => Ok(Budget::unlimited()),
    }
}

/// All of a house that may be let go, for a house with this directory and of these sizes, whose history begins
/// so. An error where memory is refused.
pub(crate) fn make_fittings<B: Naming>(
    alloc: Global,
    directory: &Directory,
    sizes: Sizes<'_>,
    guests: &[Guest],
    parts: MailboxParts<B>,
    front: &Front<B>,
) -> Result<Fittings<B>, AllocError>
    requires ring { 0 < sizes.limits.ring }
    requires parts { parts ≡ 0 }
    ensures fittings { IfOk result (λ f. AreFittings directory.now sizes.entry f) }
    ensures session_parkers { IfOk result (λ f. vec_len f.session_parkers ≡ length guests.now) }
{
    let host = Vec::from_slice(alloc, sizes.host)?;
    let mailboxes = make_mailboxes(alloc, directory.mailboxes(), sizes, parts, front)?;
    let Bells {
        parkers,
        consumers,
        session_parkers,
        sessions,
    } = hang_bells(alloc, directory, guests)?;
    let papers = make_papers(alloc, sizes.producers, directory.shards())?;
    let closings = copied(alloc, sizes.closings)?;
    let interior = Interior {
        host,
        mailboxes,
        consumers,
        sessions,
        closings,
        front: front.again(),
        budget: budget_of(alloc, sizes.memory)?,
    };
    Ok(Fittings {
        interior,
        parkers,
        session_parkers,
        papers,
    })
}
