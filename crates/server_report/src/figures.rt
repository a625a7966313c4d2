//! What is told of a server at one moment. It is plain data; who gathers it, and under which locks, stands above.

use crate::counts::Counts;

/// What a STATUS tells of a mailbox (RFC 9051, 6.3.11).
#[derive(Clone, Copy, Drop)]
pub struct MailboxFigures {
    /// How many messages are there.
    pub messages: usize,
    /// How many of them are without \Seen.
    pub unseen: usize,
    /// The bytes of all texts.
    pub bytes: u128,
    /// The UID of the next message.
    pub uid_next: u32,
}

/// A mailbox: a user's INBOX, or a folder of a user's.
#[derive(Clone, Copy, Drop)]
pub struct MailboxRow<'s> {
    /// The user's name.
    pub user: &'s [u8],
    /// The folder's name, or nothing for the INBOX.
    pub folder: Option<&'s [u8]>,
    /// What is told of it.
    pub figures: MailboxFigures,
}

/// What a peer that is connected is doing.
#[derive(Clone, Copy, Debug, PartialEq, Eq, Drop)]
pub enum PeerState {
    /// It says something, or may, and is answered.
    Talking,
    /// It waits to be told of what changes (RFC 9051, 6.3.13).
    Idling,
    /// Its last answer was said, and its end is waited for.
    Leaving,
}

/// A connection that is open where mail comes.
#[derive(Clone, Copy, Drop)]
pub struct Connection {
    /// The number that tells it apart from others.
    pub number: u128,
    /// What it is doing.
    pub state: PeerState,
}

/// A session that is open.
#[derive(Clone, Copy, Drop)]
pub struct Session<'s> {
    /// The name of its user.
    pub user: &'s [u8],
    /// The number that tells it apart from the user's others.
    pub number: u128,
    /// What it is doing.
    pub state: PeerState,
}

/// What is told of a server.
#[derive(Clone, Copy, Drop)]
pub struct Snapshot<'s> {
    /// What was counted from its start on.
    pub counts: Counts,
    /// The connections that are open.
    pub connections: &'s [Connection],
    /// The sessions that are open.
    pub sessions: &'s [Session<'s>],
    /// Each mailbox.
    pub mailboxes: &'s [MailboxRow<'s>],
}
