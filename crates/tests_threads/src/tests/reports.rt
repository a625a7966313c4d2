//! What is read of reports: each reader gives an answer for positions that aren't there, too.

use super::runs::Reported;
use delivery_token::CopyKey;
use std::alloc::{AllocError, Global};

/// The text of the message of one line.
pub const TEXT: &[u8] = b"Return-Path: <s@a.example>\r\nhi\r\n";

/// The replies to a connection in which one message of one recipient comes, and QUIT.
pub const REPLIES: &[u8] = b"220 mx.example.org LMTP ready\r\n\
250-mx.example.org\r\n\
250-PIPELINING\r\n\
250-ENHANCEDSTATUSCODES\r\n\
250 8BITMIME\r\n\
250 2.1.0 Sender OK\r\n\
250 2.1.5 Recipient OK\r\n\
354 Start mail input\r\n\
250 2.1.5 Delivered\r\n\
221 2.0.0 Bye\r\n";

/// What a copy is answered that was stored.
pub const DELIVERED: &[u8] = b"250 2.1.5 Delivered\r\n";

/// What a copy is answered whose shard had no room.
pub const FULL: &[u8] = b"452 4.3.1 Shard full\r\n";

/// The key of the first copy of a seat's first connection.
pub fn first_key(seat: u8) -> CopyKey {
    CopyKey {
        seat,
        serial: 0,
        message: 0,
        recipient: 0,
    }
}

/// Whether a mailbox accepted just these copies.
pub fn has_accepted(report: &Reported, mailbox: usize, wanted: &[(CopyKey, u32)]) -> bool {
    match report.accepted.get(mailbox) {
        Some(pairs) => pairs.as_slice() == wanted,
        None => false,
    }
}

/// Whether a mailbox holds one message, with this UID and this text.
pub fn has_text(report: &Reported, mailbox: usize, uid: u32, wanted: &[u8]) -> bool {
    let Some(texts) = report.texts.get(mailbox) else {
        return false;
    };
    match texts.first() {
        Some(row) => texts.len() == 1 && row.0 == uid && row.1.as_slice() == wanted,
        None => false,
    }
}

/// Whether a worker had one connection, to which this was replied.
pub fn has_replied(report: &Reported, worker: usize, wanted: &[u8]) -> bool {
    let Some(replies) = report.replies.get(worker) else {
        return false;
    };
    match replies.first() {
        Some(reply) => replies.len() == 1 && reply.as_slice() == wanted,
        None => false,
    }
}

/// Whether there were as many sessions as there are texts here, and each said its own.
pub fn have_said(report: &Reported, wanted: &[&[u8]]) -> bool {
    if report.sessions.len() != wanted.len() {
        return false;
    }
    for (said, text) in report.sessions.iter().zip(wanted) {
        if said.as_slice() != *text {
            return false;
        }
    }
    true
}

/// Whether a session said this line.
pub fn has_told(report: &Reported, session: usize, line: &[u8]) -> bool {
    match report.sessions.get(session) {
        Some(said) => lines_like(said.as_slice(), line) > 0,
        None => false,
    }
}

/// How many of these lines are this one.
pub fn lines_like(text: &[u8], wanted: &[u8]) -> usize {
    let mut count: usize = 0;
    for line in text.split_inclusive(|b| *b == b'\n') {
        if line == wanted {
            count = count.saturating_add(1);
        }
    }
    count
}

/// How many lines of all replies of a worker are this one.
pub fn replied_like(report: &Reported, worker: usize, wanted: &[u8]) -> usize {
    let Some(replies) = report.replies.get(worker) else {
        return 0;
    };
    let mut count: usize = 0;
    for reply in replies {
        count = count.saturating_add(lines_like(reply.as_slice(), wanted));
    }
    count
}

/// Whether a worker's log has just these copies as stored in a mailbox. An error where memory is refused.
pub fn has_stored(
    alloc: Global,
    report: &Reported,
    worker: usize,
    mailbox: u8,
    wanted: &[(CopyKey, u32)],
) -> Result<bool, AllocError> {
    let Some(log) = report.logs.get(worker) else {
        return Ok(false);
    };
    let stored = log.stored_in(alloc, mailbox)?;
    Ok(stored.as_slice() == wanted)
}

/// How many copies a worker's log has as stored, in the first so many mailboxes. An error where memory is refused.
pub fn stored_by(
    alloc: Global,
    report: &Reported,
    worker: usize,
    mailboxes: u8,
) -> Result<usize, AllocError> {
    let Some(log) = report.logs.get(worker) else {
        return Ok(0);
    };
    let mut count: usize = 0;
    for mailbox in 0..mailboxes {
        let stored = log.stored_in(alloc, mailbox)?;
        count = count.saturating_add(stored.len());
    }
    Ok(count)
}

/// How many copies a mailbox accepted.
pub fn accepted_by(report: &Reported, mailbox: usize) -> usize {
    match report.accepted.get(mailbox) {
        Some(pairs) => pairs.len(),
        None => 0,
    }
}

/// How many copies all mailboxes accepted.
pub fn accepted_in_all(report: &Reported) -> usize {
    let mut count: usize = 0;
    for pairs in &report.accepted {
        count = count.saturating_add(pairs.len());
    }
    count
}

/// How many messages are there in all mailboxes.
pub fn texts_in_all(report: &Reported) -> usize {
    let mut count: usize = 0;
    for texts in &report.texts {
        count = count.saturating_add(texts.len());
    }
    count
}
