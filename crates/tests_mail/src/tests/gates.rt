//! An actor asks once for each pass, by its own number, and counts from 0.

use std::sync::atomic::{AtomicU64, Ordering};
use workers_sync::{Actor, Gate, SyncPoint};

// Keeps how often it was asked, and by whom and with what number it was asked last.
#[derive(Drop)]
struct Ledger {
    asked: AtomicU64,
    last: AtomicU64,
    worker: AtomicU64,
}

impl Gate for Ledger {
    fn pass(&self, who: Actor, number: u64) {
        self.asked.fetch_add(1, Ordering::SeqCst);
        self.last.store(number, Ordering::SeqCst);
        if let Actor::Worker(worker) = who {
            self.worker.store(u64::from(worker), Ordering::SeqCst);
        }
    }
}

#[test]
fn each_pass_is_asked_for_once(rt: HostRuntime) {
    let ledger = Ledger {
        asked: AtomicU64::new(0),
        last: AtomicU64::new(9),
        worker: AtomicU64::new(9),
    };
    let mut sync_point = SyncPoint::new(&ledger, Actor::Worker(3));
    assert_eq!(rt; ledger.asked.load(Ordering::SeqCst), 0);
    sync_point.pass();
    assert_eq!(rt; ledger.last.load(Ordering::SeqCst), 0);
    sync_point.pass();
    sync_point.pass();
    assert_eq!(rt; ledger.asked.load(Ordering::SeqCst), 3);
    assert_eq!(rt; ledger.last.load(Ordering::SeqCst), 2);
    assert_eq!(rt; ledger.worker.load(Ordering::SeqCst), 3);
}
