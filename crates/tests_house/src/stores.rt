//! The delivery core as a session's store: whom it turns away, and that it shows no more than is asked for. The lines are those of RFC 9051, 7.4.

use change_ring::NO_FLAGS;
use delivery_core::{DeliveryCore, Settings};
use delivery_token::{CopyKey, Text};
use house::CoreStore;
use imap_session::Store;
use mailbox::{Limits, MailFault, Opening, Status};
use std::alloc::{AllocError, Global};

const SMALL: Settings = Settings {
    seats: 1,
    shards: 1,
    mailboxes: 2,
    depth: 2,
    uidvalidity: 7,
    first_uid: 1,
    limits: Limits {
        messages: 8,
        ring: 1,
        ring_max: 4,
    },
    sessions: 2,
};

/// A store over a core with nothing in it: two mailboxes, which keep four changes.
pub fn store(alloc: Global) -> Result<CoreStore, AllocError> {
    Ok(CoreStore {
        core: DeliveryCore::new(alloc, SMALL)?,
        session: 0,
    })
}

fn text(alloc: Global) -> Result<Text, AllocError> {
    Text::new(Vec::from_slice(alloc, b"hi\r\n")?)
}

// Puts the first copy into the lane.
fn puts(core: &mut DeliveryCore, mailbox: u8, text: &Text) -> bool {
    let key = CopyKey {
        seat: 0,
        serial: 0,
        message: 0,
        recipient: 0,
    };
    if !core.may_put(key, mailbox) {
        return false;
    }
    core.put(key, mailbox, text, NO_FLAGS) == Ok(None)
}

/// A first copy, of "hi", goes the whole way to a mailbox.
pub fn deliver(alloc: Global, core: &mut DeliveryCore, mailbox: u8) -> bool {
    match text(alloc) {
        Ok(text) => puts(core, mailbox, &text)
            && core.take(0) == Ok(())
            && core.deliver(0) == Ok(()),
        Err(_) => false,
    }
}

fn enter<S: Store>(store: &mut S, mailbox: u8) -> Result<Opening, MailFault> {
    store.enter(mailbox)
}

fn feed<S: Store>(store: &mut S, limit: usize, out: &mut Vec<u8>) -> Result<usize, MailFault> {
    store.feed(limit, 0, out)
}

fn count<S: Store>(store: &mut S, mailbox: u8) -> Result<Status, MailFault> {
    store.status(mailbox)
}

fn leave<S: Store>(store: &mut S) -> Result<usize, MailFault> {
    store.leave(true)
}

const STRANGER: MailFault = MailFault::Stranger;

// It has entered no mailbox, and there are none but 0 and 1.
fn is_stranger(store: &mut CoreStore, out: &mut Vec<u8>) -> bool {
    feed(store, 64, out) == Err(STRANGER)
        && leave(store) == Err(STRANGER)
        && enter(store, 2) == Err(STRANGER)
        && count(store, 2) == Err(STRANGER)
}

const EMPTY: Opening = Opening {
    count: 0,
    uidnext: 1,
    uidvalidity: 7,
};

// It enters a mailbox once, is shown what comes there, once, and leaves it once.
fn is_served(alloc: Global, store: &mut CoreStore, out: &mut Vec<u8>) -> bool {
    enter(store, 1) == Ok(EMPTY)
        && enter(store, 0) == Err(STRANGER)
        && deliver(alloc, &mut store.core, 1)
        && feed(store, 0, out) == Ok(0)
        && feed(store, 64, out) == Ok(1)
        && feed(store, 64, out) == Ok(0)
        && out.as_slice() == b"* 1 EXISTS\r\n".as_slice()
        && leave(store) == Ok(0)
}

#[test]
fn a_stranger_is_turned_away(rt: HostRuntime) -> Result<(), AllocError> {
    let mut store = store(rt.alloc())?;
    let mut out = Vec::new(rt.alloc());
    let is_as_wanted = is_stranger(&mut store, &mut out)
        && is_served(rt.alloc(), &mut store, &mut out)
        && is_stranger(&mut store, &mut out);
    assert!(rt; is_as_wanted);
    Ok(())
}
