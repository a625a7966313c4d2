//! The bell of a session. A ring that comes before anybody sleeps is kept, and each ring ends one sleep: whoever sleeps finds what was marked
//! before the ring that woke it. A parker that wasn't woken would sleep for good.

use std::alloc::AllocError;
use std::sync::Wait;
use std::sync::atomic::{AtomicBool, Ordering};
use std::thread;
use std::time::{Clock, Duration};
use workers_sync::{SessionParker, ring_each};

// How long nothing is marked: a sleep that nothing has ended lasts longer.
fn a_while() -> Duration {
    Duration::from_millis(50)
}

// Sleeps so often: whether the mark stands once that is over.
fn finds_mark<R: Wait>(rt: &R, parker: SessionParker, mark: &AtomicBool, sleeps: u8) -> bool {
    for _ in 0..sleeps {
        parker.sleep(rt);
    }
    mark.load(Ordering::SeqCst)
}

// Sets the mark after a while.
fn set_later<R: Clock>(rt: &R, mark: &AtomicBool) {
    thread::sleep(rt, a_while());
    mark.store(true, Ordering::SeqCst);
}

#[test]
fn a_session_that_idles_is_woken(rt: HostRuntime) -> Result<(), AllocError> {
    let alloc = rt.alloc();
    let session_parker = SessionParker::new(alloc)?;
    let bell = session_parker.bell()?;
    session_parker.idling()?.store(true, Ordering::SeqCst);
    bell.ring();
    let mark = AtomicBool::new(false);
    // The first ring was kept, and is heard once: what ends the second sleep is the second ring.
    let (found, ()) = thread::join(
        &rt,
        || finds_mark(&rt, session_parker, &mark, 2),
        || {
            set_later(&rt, &mark);
            bell.ring();
        },
    );
    assert!(rt; found);
    Ok(())
}

#[test]
fn whoever_wakes_all_wakes_who_does_not_idle(rt: HostRuntime) -> Result<(), AllocError> {
    let alloc = rt.alloc();
    let session_parker = SessionParker::new(alloc)?;
    let mut bells = Vec::new(alloc);
    bells.push(session_parker.bell()?)?;
    let mark = AtomicBool::new(false);
    let (found, ()) = thread::join(
        &rt,
        || finds_mark(&rt, session_parker, &mark, 1),
        || {
            // Nobody idles, so these rings are for nobody.
            ring_each(&bells);
            set_later(&rt, &mark);
            for bell in &bells {
                bell.wake();
            }
        },
    );
    assert!(rt; found);
    Ok(())
}
