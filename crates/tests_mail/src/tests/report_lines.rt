//! Lines, counts and the summary, byte by byte as docs/OPERATING.md has them; and a log whose room is full.

use delivery_token::{CopyKey, Refusal, Text, Verdict};
use envelope::Directory;
use lmtp_machine::Submission;
use server_report::{
    Caller, Counts, Happened, Held, Keeps, LOG_ROOM, Log, Refused, Scribe, Summary, append_call,
    append_copy, append_message, append_summary, call_number,
};
use std::alloc::{AllocError, Global};
use std::io;
use std::net::Net;
use std::sync::Wait;

// The directory of three mailboxes.
fn directory(alloc: Global) -> Result<Directory, AllocError> {
    let Ok(directory) = Directory::new(
        alloc,
        &[b"example.org".as_slice()],
        &[
            b"alice".as_slice(),
            b"alice/Work".as_slice(),
            b"bob".as_slice(),
        ],
        1,
    ) else {
        return Err(AllocError);
    };
    Ok(directory)
}

// A message of the worker at seat 1, of its third connection, for alice's folder and bob: the connection's second one.
fn message(alloc: Global) -> Result<Submission, AllocError> {
    let mut keys = Vec::new(alloc);
    for recipient in 0..2u8 {
        keys.push(CopyKey {
            seat: 1,
            serial: 2,
            message: 1,
            recipient,
        })?;
    }
    Ok(Submission {
        keys,
        mailboxes: Vec::from_slice(alloc, &[1u8, 2])?,
        text: Text::new(Vec::from_slice(alloc, b"0123456789")?)?,
    })
}

fn lines_of_a_message(alloc: Global) -> Result<Vec<u8>, AllocError> {
    let (directory, message) = (directory(alloc)?, message(alloc)?);
    let verdicts = [
        Verdict::Stored { uid: 7 },
        Verdict::Refused(Refusal::MailboxFull),
    ];
    let mut out = Vec::new(alloc);
    if message.mailboxes.len() == 2 && message.keys.len() == 2 {
        append_message(&directory, 4, &message, &verdicts, &mut out)?;
    }
    Ok(out)
}

#[test]
fn each_copy_has_its_line(rt: HostRuntime) -> Result<(), AllocError> {
    // Of four workers the second one's third connection is the tenth.
    let lines = lines_of_a_message(rt.alloc())?;
    assert_eq!(rt;
        lines.as_slice(),
        b"lmtp 10 message 2 alice/Work stored uid 7 10 bytes\nlmtp 10 message 2 bob refused mailbox full\n".as_slice()
    );
    Ok(())
}

fn appended_lines(alloc: Global) -> Result<Vec<u8>, AllocError> {
    let directory = directory(alloc)?;
    let caller = Caller::Client {
        user: b"alice",
        number: 3,
    };
    let mut out = Vec::new(alloc);
    for why in [
        Refusal::Full,
        Refusal::Shut,
        Refusal::UidSpent,
        Refusal::NoMemory,
    ] {
        append_copy(
            &directory,
            caller,
            0,
            0,
            None,
            Verdict::Refused(why),
            &mut out,
        )?;
    }
    append_copy(
        &directory,
        caller,
        0,
        9,
        None,
        Verdict::Stored { uid: 1 },
        &mut out,
    )?;
    Ok(out)
}

#[test]
fn each_reason_has_its_words(rt: HostRuntime) -> Result<(), AllocError> {
    let lines = appended_lines(rt.alloc())?;
    assert_eq!(rt;
        lines.as_slice(),
        b"imap alice 3 message 1 alice refused shard full\nimap alice 3 message 1 alice refused shard closed\nimap alice 3 message 1 alice refused UIDs spent\nimap alice 3 message 1 alice refused no memory\nimap alice 3 message 1 ? stored uid 1\n".as_slice()
    );
    Ok(())
}

fn call_lines(alloc: Global) -> Result<Vec<u8>, AllocError> {
    let mut out = Vec::new(alloc);
    let caller = Caller::Mail(call_number(4, 3, u64::MAX));
    for what in [
        Happened::Open,
        Happened::Idle,
        Happened::Quit,
        Happened::Gone,
        Happened::Lapsed,
        Happened::TurnedAway,
        Happened::Shut,
        Happened::Broken,
        Happened::OutOfMemory,
        Happened::Torn,
    ] {
        append_call(caller, what, &mut out)?;
    }
    Ok(out)
}

#[test]
fn each_thing_that_happens_has_its_words(rt: HostRuntime) -> Result<(), AllocError> {
    let lines = call_lines(rt.alloc())?;
    let n = "lmtp 73786976294838206464";
    let wanted = format!(in rt.alloc();
        "{n} open\n{n} idle\n{n} quit\n{n} gone\n{n} lapsed\n{n} turned away\n{n} shut\n{n} broken\n{n} out of memory\n{n} torn\n"
    )?;
    assert_eq!(rt; lines.as_slice(), wanted.as_bytes());
    Ok(())
}

fn summary(alloc: Global) -> Result<Vec<u8>, AllocError> {
    let summary = Summary {
        counts: Counts {
            messages: 3,
            stored: 4,
            refused: Refused {
                mailbox_full: 1,
                shard_full: 0,
                shard_closed: 0,
                uids_spent: 2,
                no_memory: 0,
            },
            connections: 5,
            sessions: 6,
            lost: 7,
        },
        held: Held {
            bytes: 8,
            longest_lane: 9,
        },
    };
    let mut out = Vec::new(alloc);
    append_summary(summary, &mut out)?;
    Ok(out)
}

#[test]
fn each_count_has_its_line(rt: HostRuntime) -> Result<(), AllocError> {
    let lines = summary(rt.alloc())?;
    assert_eq!(rt;
        lines.as_slice(),
        b"messages 3\ncopies stored 4\ncopies refused mailbox full 1\ncopies refused UIDs spent 2\nconnections 5\nsessions 6\nbytes held 8\nlongest lane 9\nlog lost 7 lines\n".as_slice()
    );
    Ok(())
}

#[test]
fn a_count_stays_where_it_has_no_room(rt: HostRuntime) {
    let mut counts = Counts::new();
    counts.add_lost(u64::MAX);
    counts.add_message(&[Verdict::Stored { uid: 1 }, Verdict::Refused(Refusal::Full)]);
    counts.add_lost(1);
    assert_eq!(rt;
        (counts.messages, counts.stored, counts.refused.shard_full),
        (1, 1, 1)
    );
    assert_eq!(rt; counts.lost, u64::MAX);
}

// What a log writes to which so many lines of this length were said before anybody wrote.
fn written<R: Net + Wait>(
    rt: &R,
    alloc: Global,
    count: usize,
    length: usize,
) -> io::Result<Vec<u8>> {
    let log = Log::new(rt, alloc, Keeps::Lines)?;
    let mut line = vec![in alloc; b'x'; length]?;
    line.push(b'\n').map_err(AllocError::from)?;
    for _ in 0..count {
        log.say(rt, &line, 1);
    }
    let nothing = Held {
        bytes: 0,
        longest_lane: 0,
    };
    log.end(rt, nothing);
    let mut out = Vec::new(alloc);
    Scribe::new(alloc)?.write_all(rt, &log, &mut out);
    Ok(out)
}

#[test]
fn lines_that_have_no_room_are_told(rt: HostRuntime) -> io::Result<()> {
    let out = written(&rt, rt.alloc(), 70, 1023)?;
    let told =
        b"log lost 6 lines\nmessages 0\ncopies stored 0\nconnections 0\nsessions 0\nbytes held 0\nlongest lane 0\nlog lost 6 lines\n";
    assert_eq!(rt; out.len(), LOG_ROOM + told.len());
    assert!(rt; out.ends_with(told));
    Ok(())
}
