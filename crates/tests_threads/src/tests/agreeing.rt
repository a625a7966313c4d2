//! Which lists agree, and which don't: one mailbox, one worker and two messages, as a table.

ghost use Rattle.std.specs.Prelude.{◌≡◌};

use super::support::key;
use change_ring::NO_FLAGS;
use delivery_token::{CopyKey, Job, Text, Verdict, WorkerLog};
use envelope::Directory;
use mail_date::read_internal_date;
use running_house::lists_agree;
use std::alloc::{AllocError, Global};

// Lists, and whether they agree. Keys are told by their message, seat and connection are 0.
struct Case {
    // What was heard: message and UID.
    heard: &'static [(u32, u32)],
    // What was taken from the lane: message and text.
    taken: &'static [(u32, &'static str)],
    // What the mailbox accepted: seat, message and UID.
    accepted: &'static [(u8, u32, u32)],
    // What is there: UID and text.
    there: &'static [(u32, &'static str)],
    // The dates that came with what was taken, and with what is there: none where it is no date.
    taken_at: &'static [u8],
    there_at: &'static [u8],
    whole: bool,
    agree: bool,
}

const GOOD: Case = Case {
    heard: &[(0, 7), (1, 8)],
    taken: &[(0, "one"), (1, "two")],
    accepted: &[(0, 0, 7), (0, 1, 8)],
    there: &[(7, "one"), (8, "two")],
    taken_at: b"",
    there_at: b"",
    whole: true,
    agree: true,
};

const CASES: &[Case] = &[
    GOOD,
    // Another text.
    Case {
        there: &[(7, "one"), (8, "tow")],
        agree: false,
        ..GOOD
    },
    // The date that the copies came with, another one, none, and one with copies that came without.
    Case {
        taken_at: b"17-Jul-1996 02:44:25 -0700",
        there_at: b"17-Jul-1996 02:44:25 -0700",
        ..GOOD
    },
    Case {
        taken_at: b"17-Jul-1996 02:44:25 -0700",
        there_at: b"17-Jul-1996 09:44:25 +0000",
        agree: false,
        ..GOOD
    },
    Case {
        taken_at: b"17-Jul-1996 02:44:25 -0700",
        agree: false,
        ..GOOD
    },
    Case {
        there_at: b"17-Jul-1996 02:44:25 -0700",
        agree: false,
        ..GOOD
    },
    // Another UID.
    Case {
        accepted: &[(0, 0, 7), (0, 1, 9)],
        agree: false,
        ..GOOD
    },
    // A message is gone: it may have been removed, or it may not.
    Case {
        there: &[(8, "two")],
        whole: false,
        ..GOOD
    },
    Case {
        there: &[(8, "two")],
        agree: false,
        ..GOOD
    },
    // A copy of nobody.
    Case {
        accepted: &[(0, 0, 7), (0, 1, 8), (1, 0, 9)],
        whole: false,
        agree: false,
        ..GOOD
    },
    // Nobody heard of the second copy.
    Case {
        heard: &[(0, 7)],
        agree: false,
        ..GOOD
    },
    // Keys that fall.
    Case {
        heard: &[(1, 7), (0, 8)],
        accepted: &[(0, 1, 7), (0, 0, 8)],
        there: &[(7, "two"), (8, "one")],
        agree: false,
        ..GOOD
    },
    // Taken in another order than they were accepted in.
    Case {
        taken: &[(1, "two"), (0, "one")],
        agree: false,
        ..GOOD
    },
];

fn text(alloc: Global, word: &str, date: &[u8]) -> Result<Text, AllocError> {
    Text::with_date(
        Vec::from_slice(alloc, word.as_bytes())?,
        read_internal_date(date),
    )
}

fn logs(alloc: Global, heard: &[(u32, u32)]) -> Result<Vec<WorkerLog>, AllocError> {
    let mut log = WorkerLog::new(alloc, 0);
    for (message, uid) in heard {
        log.reserve(1)?;
        log.note(key(0, *message), 0, Verdict::Stored { uid: *uid });
    }
    Ok(vec![in alloc; log]?)
}

fn copies(alloc: Global, taken: &[(u32, &str)], date: &[u8]) -> Result<Vec<Job>, AllocError> {
    let mut copies = Vec::new(alloc);
    for (message, word) in taken {
        copies.push(Job {
            key: key(0, *message),
            mailbox: 0,
            text: text(alloc, word, date)?,
            flags: NO_FLAGS,
        })?;
    }
    Ok(copies)
}

fn pairs(
    alloc: Global,
    accepted: &[(u8, u32, u32)],
) -> Result<Vec<Vec<(CopyKey, u32)>>, AllocError> {
    let mut pairs = Vec::new(alloc);
    for (seat, message, uid) in accepted {
        pairs.push((key(*seat, *message), *uid))?;
    }
    Ok(vec![in alloc; pairs]?)
}

fn texts(
    alloc: Global,
    there: &[(u32, &str)],
    date: &[u8],
) -> Result<Vec<Vec<(u32, Text)>>, AllocError> {
    let mut texts = Vec::new(alloc);
    for (uid, word) in there {
        texts.push((*uid, text(alloc, word, date)?))?;
    }
    Ok(vec![in alloc; texts]?)
}

fn agree(alloc: Global, directory: &Directory, case: &Case) -> Result<bool, AllocError>
    requires { directory.now.shards ≡ 1 }
{
    lists_agree(
        alloc,
        directory,
        case.whole,
        logs(alloc, case.heard)?.as_slice(),
        vec![in alloc; copies(alloc, case.taken, case.taken_at)?]?.as_slice(),
        pairs(alloc, case.accepted)?.as_slice(),
        texts(alloc, case.there, case.there_at)?.as_slice(),
    )
}

// The position of the first case that is answered otherwise, where there is one.
fn first_other(alloc: Global) -> Result<Option<usize>, AllocError> {
    let Ok(directory) = Directory::new(
        alloc,
        &[b"example.org".as_slice()],
        &[b"alice".as_slice()],
        1,
    ) else {
        return Err(AllocError);
    };
    for position in 0..CASES.len() {
        if agree(alloc, &directory, &CASES[position])? != CASES[position].agree {
            return Ok(Some(position));
        }
    }
    Ok(None)
}

#[test]
fn lists_agree_where_they_should(rt: HostRuntime) -> Result<(), AllocError> {
    assert!(rt; first_other(rt.alloc())? == None);
    Ok(())
}
