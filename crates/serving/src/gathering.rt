//! What a server is doing at one moment, gathered for its page: what was counted, who is connected, and what each mailbox holds. Each lock
//! is held for one look, and no two at once; how the page is spelled stands in `server_report`.

use crate::sessions::name_of_user;
use crate::site::Site;
use crate::visiting::Sign;
use envelope::Directory;
use house_history::Naming;
use locked_mailbox::LockedMailbox;
use server_report::{
    Connection, Counts, MailboxFigures, MailboxRow, Names, Presence, Session, Snapshot,
};
use shared_consumers::LaneGroup;
use std::alloc::{AllocError, Global};
use std::sync::{Mutex, Wait};

/// What was gathered.
#[derive(Drop)]
pub(crate) struct Gathered<'s> {
    counts: Counts,
    connections: Vec<Connection>,
    sessions: Vec<Session<'s>>,
    mailboxes: Vec<MailboxRow<'s>>,
}

impl<'s> Gathered<'s> {
    /// Nothing was gathered.
    pub(crate) fn nothing(alloc: Global) -> Gathered<'s> {
        Gathered {
            counts: Counts::new(),
            connections: Vec::new(alloc),
            sessions: Vec::new(alloc),
            mailboxes: Vec::new(alloc),
        }
    }

    /// What is told of it.
    pub(crate) fn snapshot(&self) -> Snapshot<'_> {
        Snapshot {
            counts: self.counts,
            connections: &self.connections,
            sessions: &self.sessions,
            mailboxes: &self.mailboxes,
        }
    }
}

// The connection that the worker at this seat has at hand, if there is one.
fn connection_at(names: Names<'_>, presences: &[Presence], seat: usize) -> Option<Connection> {
    let Ok(number) = u8::try_from(seat) else {
        return None;
    };
    let presence = presences.get(seat)?;
    let serial = presence.serial()?;
    Some(Connection {
        number: names.connection_number(number, serial),
        state: presence.state(false),
    })
}

// The connections that the workers have at hand, in the order of the workers.
fn connections_of<B: Naming, H: LaneGroup>(
    alloc: Global,
    site: &Site<B, H>,
) -> Result<Vec<Connection>, AllocError> {
    let names = site.workplace.names();
    let presences = site.workplace.presences.as_slice();
    let mut open = Vec::new(alloc);
    for seat in 0..presences.len() {
        if let Some(connection) = connection_at(names, presences, seat) {
            open.push(connection)?;
        }
    }
    Ok(open)
}

// The session that this client slot of a user has at hand, if there is one.
fn session_of<'s>(
    names: Names<'s>,
    user: &'s [u8],
    client_slot: u8,
    sign: &Sign,
) -> Option<Session<'s>> {
    let presence = sign.presence();
    let serial = presence.serial()?;
    Some(Session {
        user,
        number: names.session_number(client_slot, serial),
        state: presence.state(sign.is_idling()),
    })
}

// The session that the client slot of this number has at hand, if there is one.
fn session_at<'s, B: Naming, H: LaneGroup>(
    names: Names<'s>,
    site: &'s Site<B, H>,
    client_slot: usize,
) -> Option<Session<'s>> {
    let Ok(number) = u8::try_from(client_slot) else {
        return None;
    };
    let guest = site.guests.get(client_slot)?;
    let sign = site.signs.get(client_slot)?;
    let user = name_of_user(names.directory, guest.user);
    session_of(names, user, number, sign)
}

// The sessions that the client slots have at hand, in the order of the client slots.
fn sessions_of<'s, B: Naming, H: LaneGroup>(
    alloc: Global,
    site: &'s Site<B, H>,
) -> Result<Vec<Session<'s>>, AllocError> {
    let names = site.workplace.names();
    let mut open = Vec::new(alloc);
    for client_slot in 0..site.guests.len() {
        if let Some(session) = session_at(names, site, client_slot) {
            open.push(session)?;
        }
    }
    Ok(open)
}

// What a STATUS tells of a mailbox, by a look under its lock.
fn figures_of<B: Naming, R: Wait>(rt: &R, mailbox: &Mutex<LockedMailbox<B>>) -> MailboxFigures {
    let held = mailbox.lock(rt);
    let status = held.count();
    MailboxFigures {
        messages: status.messages,
        unseen: status.unseen,
        bytes: status.size,
        uid_next: status.uidnext,
    }
}

// Each mailbox of the directory, in its order.
fn rows_of<'s, B: Naming, R: Wait>(
    rt: &R,
    alloc: Global,
    directory: &'s Directory,
    mailboxes: &[Mutex<LockedMailbox<B>>],
) -> Result<Vec<MailboxRow<'s>>, AllocError> {
    let mut rows = Vec::new(alloc);
    for number in 0..directory.mailboxes() {
        if let Some(mailbox) = mailboxes.get(number) {
            rows.push(MailboxRow {
                user: directory.user_of(number as u8),
                folder: directory.folder_of(number as u8),
                figures: figures_of(rt, mailbox),
            })?;
        }
    }
    Ok(rows)
}

/// What this server is doing now. Its parts are of different moments, as each is looked at.
///
/// Errors: `AllocError` where memory is refused.
pub(crate) fn gather<'s, B: Naming, H: LaneGroup, R: Wait>(
    rt: &R,
    site: &'s Site<B, H>,
) -> Result<Gathered<'s>, AllocError> {
    let shared = &site.workplace.shared;
    let alloc = shared.alloc;
    Ok(Gathered {
        counts: site.workplace.log.counts(rt),
        connections: connections_of(alloc, site)?,
        sessions: sessions_of(alloc, site)?,
        mailboxes: rows_of(
            rt,
            alloc,
            &shared.intake.directory,
            &shared.delivery.mailboxes,
        )?,
    })
}
