//! Scripts to measure with: mail that comes in, and sessions one after another. They are only written here; no house is known.

ghost use Rattle.std.specs.Prelude.{◌<◌};

use itoa::Buffer;
use std::alloc::{AllocError, Global};

// How many sessions a script may have at a time.
const PLACES: u8 = 8;

// From one removal to the next so many UIDs lie, round the end. It is a prime, so that none comes twice.
const STRIDE: u64 = 7919;

// A message for a user comes on connection 1, which is open.
fn push_message(user: &[u8], script: &mut Vec<u8>) -> Result<(), AllocError> {
    script.extend_from_slice(b"L1 MAIL FROM:<s@a.example>\nL1 RCPT TO:<")?;
    script.extend_from_slice(user)?;
    script.extend_from_slice(
        b"@example.org>\nL1 DATA\nL1 Subject: minutes\nL1 \nL1 The next meeting is on Monday.\nL1 .\n",
    )
}

// A message for each of these users.
fn push_messages(users: &[&[u8]], script: &mut Vec<u8>) -> Result<(), AllocError> {
    for user in users {
        push_message(user, script)?;
    }
    Ok(())
}

/// A script in which connection 1 opens, and so many messages come for each of these users, by turns.
pub fn deliveries(alloc: Global, users: &[&[u8]], each: usize) -> Result<Vec<u8>, AllocError> {
    let mut script = Vec::from_slice(alloc, b"L1 LHLO c.example\n")?;
    for _ in 0..each {
        push_messages(users, &mut script)?;
    }
    Ok(script)
}

// What the session at a place says, or how it is opened.
fn push_asked(place: u8, text: &[u8], script: &mut Vec<u8>) -> Result<(), AllocError>
    requires { place < PLACES }
{
    script.extend_from_slice(&[b'I', b'1' + place])?;
    script.extend_from_slice(text)?;
    script.extend_from_slice(b"\n")
}

/// What each session asks: it looks at the first ten messages, changes the flags of one, and leaves.
const ASKED: [&[u8]; 6] = [
    b"=alice",
    b" a1 SELECT INBOX",
    b" a2 FETCH 1:10 (UID FLAGS)",
    b" a3 STORE 5 +FLAGS (\\Flagged)",
    b" a4 STORE 5 -FLAGS (\\Flagged)",
    b" a5 LOGOUT",
];

// The same is said at each place.
fn push_at_all(text: &[u8], script: &mut Vec<u8>) -> Result<(), AllocError> {
    for place in 0..PLACES {
        push_asked(place, text, script)?;
    }
    Ok(())
}

// What the sessions of one round ask, by turns.
fn push_round(script: &mut Vec<u8>) -> Result<(), AllocError> {
    for text in ASKED {
        push_at_all(text, script)?;
    }
    Ok(())
}

/// A script in which eight sessions of alice stand at a time, and ask by turns, in so many rounds; after each round others take their places.
pub fn visits(alloc: Global, rounds: usize) -> Result<Vec<u8>, AllocError> {
    let mut script = Vec::new(alloc);
    for _ in 0..rounds {
        push_round(&mut script)?;
    }
    Ok(script)
}

/// A session's command for the messages with odd UIDs below a bound, each of which its set names by itself.
pub fn odd_fetch(alloc: Global, bound: u32) -> Result<Vec<u8>, AllocError> {
    let mut script = Vec::from_slice(alloc, b"I1 b1 UID FETCH 1")?;
    let mut digits = Buffer::new();
    for half in 1..bound / 2 {
        script.extend_from_slice(b",")?;
        script.extend_from_slice(digits.format(2 * half + 1).as_bytes())?;
    }
    script.extend_from_slice(b" FLAGS\n")?;
    Ok(script)
}

/// So many commands of a session, each for the same message.
pub fn single_fetches(alloc: Global, count: usize) -> Result<Vec<u8>, AllocError> {
    let mut script = Vec::new(alloc);
    for _ in 0..count {
        script.extend_from_slice(b"I1 b2 UID FETCH 5 FLAGS\n")?;
    }
    Ok(script)
}

/// So many commands of a session, each for the counts of its mailbox.
pub fn statuses(alloc: Global, count: usize) -> Result<Vec<u8>, AllocError> {
    let mut script = Vec::new(alloc);
    for _ in 0..count {
        script.extend_from_slice(b"I1 b3 STATUS INBOX (MESSAGES UNSEEN DELETED SIZE)\n")?;
    }
    Ok(script)
}

// A session marks a message as deleted, and removes it.
fn push_removal(uid: u32, script: &mut Vec<u8>) -> Result<(), AllocError> {
    let mut digits = Buffer::new();
    let uid = digits.format(uid).as_bytes();
    script.extend_from_slice(b"I1 b4 UID STORE ")?;
    script.extend_from_slice(uid)?;
    script.extend_from_slice(b" +FLAGS.SILENT (\\Deleted)\nI1 b5 UID EXPUNGE ")?;
    script.extend_from_slice(uid)?;
    script.extend_from_slice(b"\n")
}

/// A session removes so many of the UIDs up to a bound, each by commands of its own, in an order in which no two that follow one another are near.
pub fn scattered_removals(alloc: Global, count: u32, bound: u32) -> Result<Vec<u8>, AllocError> {
    let mut script = Vec::new(alloc);
    for i in 0..count {
        let scattered = 1 + u64::from(i) * STRIDE % u64::from(bound.max(1));
        push_removal(scattered as u32, &mut script)?;
    }
    Ok(script)
}
