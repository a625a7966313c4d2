//! What the tests of mailboxes share: flags, a date with how it is written, and what is looked at behind a call.

use change_ring::{Flags, NO_FLAGS};
use mail_date::{Stamp, Zone};
use mailbox::{Limits, MailFault, Row, Status};

/// The flag \Seen alone.
pub(crate) const SEEN: Flags = Flags {
    seen: true,
    ..NO_FLAGS
};

/// The flag \Deleted alone.
pub(crate) const DELETED: Flags = Flags {
    deleted: true,
    ..NO_FLAGS
};

/// Room for eight messages and sixteen changes, which doesn't grow.
pub(crate) const SMALL: Limits = Limits {
    messages: 8,
    ring: 16,
    ring_max: 0,
};

/// What is told of a mailbox with one message, "hi", that was read.
pub(crate) const ONE_SEEN: Status = Status {
    messages: 1,
    uidnext: 2,
    uidvalidity: 7,
    unseen: 0,
    deleted: 0,
    size: 4,
};

/// The date of the example of FETCH (RFC 9051, section 8), as `example_date` has it.
pub(crate) const EXAMPLE_DATE: &[u8] = b"17-Jul-1996 02:44:25 -0700";

/// That date.
pub(crate) fn example_date() -> Stamp {
    stamp((1996, 7, 17), (2, 44, 25), 7)
}

/// The year, month and day, the hour, minute and second, and how many hours the clock is behind UTC.
pub(crate) fn stamp(day: (u16, u8, u8), time: (u8, u8, u8), hours: u8) -> Stamp {
    Stamp {
        year: day.0,
        month: day.1,
        day: day.2,
        hour: time.0,
        minute: time.1,
        second: time.2,
        zone: Zone {
            is_west: true,
            hours,
            minutes: 0,
        },
    }
}

/// What a read told of flags, and whether they became others. Another message than that of this UID, whose text is "hi", is told
/// as a fault that no test wants.
pub(crate) fn flags_read(
    read: Result<Option<Row>, MailFault>,
    uid: u32,
) -> Result<Option<(Flags, bool)>, MailFault> {
    let Some(row) = read? else {
        return Ok(None);
    };
    if row.uid != uid || row.text.as_slice() != b"hi\r\n".as_slice() {
        return Err(MailFault::NoMemory);
    }
    Ok(Some((row.flags, row.newly_seen)))
}

/// Whether these lines were written; they are taken away.
pub(crate) fn lines_are(out: &mut Vec<u8>, wanted: &[u8]) -> bool {
    let same = &out[..] == wanted;
    out.clear();
    same
}
