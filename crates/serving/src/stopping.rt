//! How a house that serves is stopped: what stops it is waited for, then it is marked, and each thread that waits for a peer is woken.
//! What a thread does then is its own matter.

use crate::site::Site;
use house_history::Naming;
use locked_mailbox::LockedMailbox;
use shared_consumers::{LaneGroup, SharedConsumer};
use std::io::{ErrorKind, Read};
use std::sync::{Mutex, Wait};
use workers_sync::{SessionBell, ShutdownHandle};

/// So many pauses, of a tenth of a second each, all connections together have for their last words. What is done before and behind them
/// is to fit into six seconds with them.
const GRACE: u32 = 48;

/// Reads to the end; what is read is dropped. A reader that fails is at its end.
pub(crate) fn await_end<R: Wait, I: Read + Drop>(rt: &R, mut input: I) {
    let mut dropped = [0u8; 256];
    for _ in rt.forever() {
        match input.read(&mut dropped) {
            Ok(0) => return,
            Ok(_) => {}
            Err(fault) if fault.kind() == ErrorKind::Interrupted => {}
            Err(_) => return,
        }
    }
}

fn wake_each(bells: &[SessionBell]) {
    for bell in bells {
        bell.wake();
    }
}

// Wakes each thread that waits for a session's client: a session's bells stand at each of its user's mailboxes.
fn wake_all(rows: &[Vec<SessionBell>]) {
    for bells in rows {
        wake_each(bells);
    }
}

// Nothing is accepted any more.
fn shut_listeners<B: Naming, H: LaneGroup>(site: &Site<B, H>) {
    site.workplace.lmtp.shut();
    for listening in &site.imap {
        listening.shut();
    }
    if let Some(page) = &site.page {
        page.listening.shut();
    }
}

// No thread hears its peer any more.
fn shut_read_each<R: Wait>(rt: &R, shutdown_handles: &[ShutdownHandle]) {
    for shutdown_handle in shutdown_handles {
        shutdown_handle.shut_read(rt);
    }
}

fn shut_read_all<B: Naming, H: LaneGroup, R: Wait>(rt: &R, site: &Site<B, H>) {
    shut_read_each(rt, &site.shutdown_handles.mail);
    shut_read_each(rt, &site.shutdown_handles.clients);
    if let Some(page) = &site.page {
        page.shutdown_handle.shut_read(rt);
    }
}

fn cut_each<R: Wait>(rt: &R, shutdown_handles: &[ShutdownHandle]) {
    for shutdown_handle in shutdown_handles {
        shutdown_handle.cut(rt);
    }
}

fn cut_all<B: Naming, H: LaneGroup, R: Wait>(rt: &R, site: &Site<B, H>) {
    cut_each(rt, &site.shutdown_handles.mail);
    cut_each(rt, &site.shutdown_handles.clients);
    if let Some(page) = &site.page {
        page.shutdown_handle.cut(rt);
    }
}

fn are_empty<R: Wait>(rt: &R, shutdown_handles: &[ShutdownHandle]) -> bool {
    shutdown_handles
        .iter()
        .all(|shutdown_handle| shutdown_handle.is_empty(rt))
}

// Whether nobody is at the page.
fn is_unread<B: Naming, H: LaneGroup, R: Wait>(rt: &R, site: &Site<B, H>) -> bool {
    match &site.page {
        Some(page) => page.shutdown_handle.is_empty(rt),
        None => true,
    }
}

// Waits until no connection is at hand, or the grace is over.
fn give_grace<B: Naming, H: LaneGroup, R: Wait>(rt: &R, site: &Site<B, H>) {
    for _ in 0..GRACE {
        if are_empty(rt, &site.shutdown_handles.mail)
            && are_empty(rt, &site.shutdown_handles.clients)
            && is_unread(rt, site)
        {
            return;
        }
        site.workplace.pause.wait();
    }
}

/// Stops the house: it is marked, nothing is accepted any more, no thread hears its peer any more, each that waits for a bell is woken; and what is
/// at hand some five seconds later is cut.
pub(crate) fn stop_all<B: Naming, H: LaneGroup, R: Wait>(rt: &R, site: &Site<B, H>) {
    site.workplace.mark.set();
    shut_listeners(site);
    shut_read_all(rt, site);
    wake_all(&site.workplace.shared.delivery.sessions);
    site.watch.stop();
    give_grace(rt, site);
    cut_all(rt, site);
}

// The most that a shared consumer took in a row, as it is found under its lock.
fn longest_of<B: Naming, H: LaneGroup, R: Wait>(
    rt: &R,
    shared_consumer: &Mutex<SharedConsumer<B, H>>,
) -> u64 {
    shared_consumer.lock(rt).longest()
}

/// The most that one of these shared consumers took of its lane in a row.
pub(crate) fn longest_lane<B: Naming, H: LaneGroup, R: Wait>(
    rt: &R,
    shared_consumers: &[Mutex<SharedConsumer<B, H>>],
) -> u64 {
    let mut longest = 0u64;
    for shared_consumer in shared_consumers {
        longest = longest.max(longest_of(rt, shared_consumer));
    }
    longest
}

// How many bytes a mailbox holds, by a look under its lock.
fn bytes_in<B: Naming, R: Wait>(rt: &R, mailbox: &Mutex<LockedMailbox<B>>) -> u64 {
    let held = mailbox.lock(rt);
    u64::try_from(held.count().size).unwrap_or(u64::MAX)
}

/// How many bytes these mailboxes hold, each as it is found under its lock.
pub(crate) fn bytes_held<B: Naming, R: Wait>(rt: &R, mailboxes: &[Mutex<LockedMailbox<B>>]) -> u64 {
    let mut held = 0u64;
    for mailbox in mailboxes {
        held = held.saturating_add(bytes_in(rt, mailbox));
    }
    held
}
