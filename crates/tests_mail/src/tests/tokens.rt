//! Keys in their order, texts that are shared, and the log of what was heard.

use super::support::{EXAMPLE_DATE, example_date, stamp};
use delivery_token::{CopyKey, Refusal, Text, Verdict, WorkerLog, precedes};
use mail_date::{Stamp, read_internal_date};
use std::alloc::{AllocError, Global};

fn key(seat: u8, serial: u64, message: u32, recipient: u8) -> CopyKey {
    CopyKey {
        seat,
        serial,
        message,
        recipient,
    }
}

#[test]
fn keys_of_a_seat_stand_in_order(rt: HostRuntime) {
    assert!(rt; precedes(&key(1, 4, 9, 9), &key(1, 5, 0, 0)));
    assert!(rt; precedes(&key(1, 5, 0, 9), &key(1, 5, 1, 0)));
    assert!(rt; precedes(&key(1, 5, 1, 0), &key(1, 5, 1, 1)));
    assert!(rt; !precedes(&key(1, 5, 1, 1), &key(1, 5, 1, 1)));
    assert!(rt; !precedes(&key(0, 4, 0, 0), &key(1, 5, 0, 0)));
}

#[test]
fn a_copied_text_is_equal(rt: HostRuntime) -> Result<(), AllocError> {
    let text = Text::new(Vec::from_slice(rt.alloc(), b"hi\r\n")?)?;
    assert!(rt; text.copy()?.as_slice() == b"hi\r\n".as_slice());
    Ok(())
}

// A message whose header says the date of the message that RFC 3501 appends (section 6.3.11).
const DATED: &[u8] = b"Received: by x; Mon, 7 Feb 1994 21:52:25 -0800\r\n\r\nhi\r\n";

// That date.
fn date_said() -> Stamp {
    stamp((1994, 2, 7), (21, 52, 25), 8)
}

#[test]
fn a_text_has_the_date_that_came_with_it(rt: HostRuntime) -> Result<(), AllocError> {
    let given = read_internal_date(EXAMPLE_DATE);
    let text = Text::with_date(Vec::from_slice(rt.alloc(), DATED)?, given)?;
    assert_eq!(rt; text.date(), example_date());
    assert_eq!(rt; text.copy()?.date(), example_date());
    assert!(rt; text.given_date() == given);
    assert!(rt; text.as_slice() == DATED);
    Ok(())
}

#[test]
fn a_text_without_a_date_has_that_of_its_header(rt: HostRuntime) -> Result<(), AllocError> {
    let text = Text::new(Vec::from_slice(rt.alloc(), DATED)?)?;
    assert_eq!(rt; text.date(), date_said());
    assert_eq!(rt; text.copy()?.date(), date_said());
    assert!(rt; text.given_date().is_none());
    Ok(())
}

fn log_of_four(alloc: Global) -> Result<WorkerLog, AllocError> {
    let mut log = WorkerLog::new(alloc, 1);
    log.reserve(4)?;
    log.note(key(1, 0, 0, 0), 4, Verdict::Stored { uid: 7 });
    log.note(key(1, 0, 0, 1), 4, Verdict::Refused(Refusal::Full));
    log.note(key(1, 0, 0, 2), 5, Verdict::Stored { uid: 7 });
    log.note(key(1, 0, 0, 3), 4, Verdict::Stored { uid: 8 });
    Ok(log)
}

#[test]
fn a_log_tells_what_was_stored_in_a_mailbox(rt: HostRuntime) -> Result<(), AllocError> {
    let log = log_of_four(rt.alloc())?;
    let stored = log.stored_in(rt.alloc(), 4)?;
    assert!(rt; stored.as_slice() == &[(key(1, 0, 0, 0), 7), (key(1, 0, 0, 3), 8)][..]);
    Ok(())
}
