//! The bells of a house: those of its consumers, and those of its sessions, by the mailboxes that they
//! may look at. Who rings them, and who sleeps on them, stands in the crates below.

ghost use Rattle.std.specs.Prelude.{◌≡◌, ◌<◌, IfOk, length, vec_len};
ghost use Rattle.house_shared.specs.inner.Making.{AreBells};

use crate::shared::Guest;
use crate::users::inbox_numbered;
use crossbeam_utils::sync::{Parker, Unparker};
use envelope::Directory;
use std::alloc::{AllocError, Global};
use workers_sync::{SessionBell, SessionParker};

/// All bells of a house.
#[derive(Drop)]
pub(crate) struct Bells {
    /// Each consumer's own end of its bell.
    pub(crate) parkers: Vec<Parker>,
    /// What rings it.
    pub(crate) consumers: Vec<Unparker>,
    /// Each session's own end of its bell.
    pub(crate) session_parkers: Vec<SessionParker>,
    /// For each mailbox, what rings the sessions of its user.
    pub(crate) sessions: Vec<Vec<SessionBell>>,
}

// So many new bells of consumers, their own ends.
fn make_parkers(alloc: Global, count: usize) -> Result<Vec<Parker>, AllocError>
    ensures count { IfOk result (λ v. vec_len v ≡ count) }
{
    let mut parkers = Vec::with_capacity(alloc, count)?;
    for _ in 0..count {
        parkers.push_reserved(Parker::new(alloc)?);
    }
    Ok(parkers)
}

// So many new bells of sessions, their own ends.
fn make_session_parkers(alloc: Global, count: usize) -> Result<Vec<SessionParker>, AllocError>
    ensures count { IfOk result (λ v. vec_len v ≡ count) }
{
    let mut session_parkers = Vec::with_capacity(alloc, count)?;
    for _ in 0..count {
        session_parkers.push_reserved(SessionParker::new(alloc)?);
    }
    Ok(session_parkers)
}

// What rings each consumer's.
fn make_bells(alloc: Global, parkers: &[Parker]) -> Result<Vec<Unparker>, AllocError>
    ensures count { IfOk result (λ v. vec_len v ≡ length parkers.now) }
{
    let mut bells = Vec::with_capacity(alloc, parkers.len())?;
    for parker in parkers {
        bells.push_reserved(parker.unparker().clone()?);
    }
    Ok(bells)
}

// Whether the mailbox is one of the user of this number.
fn is_of(directory: &Directory, mailbox: u8, user: u8) -> bool
    requires { mailbox < length directory.now.homes }
{
    match inbox_numbered(directory, user) {
        Some(inbox) => directory.user_of(inbox) == directory.user_of(mailbox),
        None => false,
    }
}

// What rings the sessions of a mailbox's user.
fn bells_of(
    alloc: Global,
    directory: &Directory,
    mailbox: u8,
    guests: &[Guest],
    session_parkers: &[SessionParker],
) -> Result<Vec<SessionBell>, AllocError>
    requires mailbox { mailbox < length directory.now.homes }
    requires session_parkers { length session_parkers.now ≡ length guests.now }
{
    let mut bells = Vec::new(alloc);
    for session in 0..guests.len() {
        if is_of(directory, mailbox, guests[session].user) {
            bells.push(session_parkers[session].bell()?)?;
        }
    }
    Ok(bells)
}

// The same for each mailbox.
fn make_session_bells(
    alloc: Global,
    directory: &Directory,
    guests: &[Guest],
    session_parkers: &[SessionParker],
) -> Result<Vec<Vec<SessionBell>>, AllocError>
    requires session_parkers { length session_parkers.now ≡ length guests.now }
    ensures count { IfOk result (λ v. vec_len v ≡ length directory.now.homes) }
{
    let mailboxes = directory.mailboxes();
    let mut bells = Vec::with_capacity(alloc, mailboxes)?;
    for mailbox in 0..mailboxes {
        bells.push_reserved(bells_of(alloc, directory, mailbox as u8, guests, session_parkers)?);
    }
    Ok(bells)
}

/// The bells of all consumers, one for each shard, and of all sessions. An error where memory is
/// refused.
pub(crate) fn hang_bells(
    alloc: Global,
    directory: &Directory,
    guests: &[Guest],
) -> Result<Bells, AllocError>
    ensures bells { IfOk result (λ b. AreBells directory.now b) }
    ensures session_parkers { IfOk result (λ b. vec_len b.session_parkers ≡ length guests.now) }
{
    let parkers = make_parkers(alloc, usize::from(directory.shards()))?;
    let consumers = make_bells(alloc, &parkers)?;
    let session_parkers = make_session_parkers(alloc, guests.len())?;
    let sessions = make_session_bells(alloc, directory, guests, &session_parkers)?;
    Ok(Bells {
        parkers,
        consumers,
        session_parkers,
        sessions,
    })
}
