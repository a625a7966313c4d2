//! The lines of a server's log, each of one thing that happened. Where they go, and what is counted, stands in the modules beside this one.

ghost use Rattle.std.specs.Prelude.{◌≡◌, ◌++◌, ◌+◌, ◌<◌, codes, decimal, length, slice_get, zip, None, OnOk, Some, Option, vec_len};
ghost use Rattle.lmtp_machine.specs.Calls.{submission_of};
ghost use Rattle.lane_work.specs.Account.{copies_of};
ghost use Rattle.server_report.specs.Lines.{call_line, call_number, caller_words, copy_line, happened_words, mail_lines, mail_line, mailbox_words, size_words, verdict_words};

use crate::refused::reason_words;
use delivery_token::{CopyKey, Verdict};
use envelope::Directory;
use itoa::Buffer;
use line_io::append_parts;
use lmtp_machine::Submission;
use std::alloc::AllocError;

/// Whose call a line is about.
#[derive(Clone, Copy)]
pub enum Caller<'a> {
    /// The connection of mail with this number (`call_number`).
    Mail(u128),
    /// A session of this user, with this number among the user's.
    Client {
        /// The user's name.
        user: &'a [u8],
        /// The session's number.
        number: u128,
    },
}

/// What happened to a call.
#[derive(Clone, Copy, Debug, PartialEq, Eq)]
pub enum Happened {
    /// It was accepted.
    Open,
    /// Its client waits to be shown changes (RFC 9051, section 6.3.13).
    Idle,
    /// It was ended: by the peer with QUIT or LOGOUT, or by the server.
    Quit,
    /// The peer went away without a word.
    Gone,
    /// The client missed so many changes that it can't be told them any more.
    Lapsed,
    /// It was one client too many of its user, and was told so.
    TurnedAway,
    /// The server stops.
    Shut,
    /// What came couldn't be read, or what was said couldn't be sent.
    Broken,
    /// Memory was refused.
    OutOfMemory,
    /// Something came on the way back of verdicts that wasn't awaited.
    Torn,
}

/// The number of a call, from 1 on, of one that was accepted at this place among so many places, each of which takes one call after another
/// with serials from 0 on. No two calls have one number, and nobody has to share a counter.
pub fn call_number(places: u8, place: u8, serial: u64) -> u128
    ensures { result ≡ call_number places place serial }
{
    u128::from(serial) * u128::from(places) + u128::from(place) + 1
}

// Who calls.
fn append_caller(caller: Caller<'_>, out: &mut Vec<u8>) -> Result<(), AllocError>
    ensures { OnOk result (out.new.items ≡ out.old.items ++ caller_words caller.entry) }
{
    let mut digits = Buffer::new();
    match caller {
        Caller::Mail(number) => append_parts(
            &[b"lmtp ".as_slice(), digits.format(number).as_bytes()],
            out,
        ),
        Caller::Client { user, number } => append_parts(
            &[
                b"imap ".as_slice(),
                user,
                b" ".as_slice(),
                digits.format(number).as_bytes(),
            ],
            out,
        ),
    }
}

// A mailbox of the directory, by its number; a question mark where it has none of that number.
fn append_mailbox(directory: &Directory, mailbox: u8, out: &mut Vec<u8>) -> Result<(), AllocError>
    ensures { OnOk result (out.new.items
        ≡ out.old.items ++ mailbox_words directory.now.homes mailbox) }
{
    if usize::from(mailbox) >= directory.mailboxes() {
        return append_parts(&[b"?".as_slice()], out);
    }
    let user = directory.user_of(mailbox);
    match directory.folder_of(mailbox) {
        None => append_parts(&[user], out),
        Some(folder) => append_parts(&[user, b"/".as_slice(), folder], out),
    }
}

// How large a message is, where that is known.
fn append_size(size: Option<usize>, out: &mut Vec<u8>) -> Result<(), AllocError>
    ensures { OnOk result (out.new.items ≡ out.old.items ++ size_words size) }
{
    let Some(size) = size else {
        return Ok(());
    };
    let mut digits = Buffer::new();
    append_parts(
        &[
            b" ".as_slice(),
            digits.format(size).as_bytes(),
            b" bytes".as_slice(),
        ],
        out,
    )
}

// What became of a copy.
fn append_verdict(
    size: Option<usize>,
    verdict: Verdict,
    out: &mut Vec<u8>,
) -> Result<(), AllocError>
    ensures { OnOk result (out.new.items ≡ out.old.items ++ verdict_words size verdict) }
{
    match verdict {
        Verdict::Stored { uid } => {
            let mut digits = Buffer::new();
            append_parts(
                &[b"stored uid ".as_slice(), digits.format(uid).as_bytes()],
                out,
            )?;
            append_size(size, out)
        }
        Verdict::Refused(why) => append_parts(&[b"refused ".as_slice(), reason_words(why)], out),
    }
}

/// A line of what became of one copy of a caller's message: its number there, counted from 1, its mailbox, and its size where that is known.
///
/// Errors: `AllocError` where memory was refused; a part of the line may stand in `out` then.
pub fn append_copy(
    directory: &Directory,
    caller: Caller<'_>,
    message: u32,
    mailbox: u8,
    size: Option<usize>,
    verdict: Verdict,
    out: &mut Vec<u8>,
) -> Result<(), AllocError>
    ensures { OnOk result (out.new.items
        ≡ out.old.items
        ++ copy_line directory.now.homes caller.entry message mailbox size verdict) }
{
    append_caller(caller, out)?;
    let mut digits = Buffer::new();
    let number = digits.format(u64::from(message) + 1).as_bytes();
    append_parts(&[b" message ".as_slice(), number, b" ".as_slice()], out)?;
    append_mailbox(directory, mailbox, out)?;
    append_parts(&[b" ".as_slice()], out)?;
    append_verdict(size, verdict, out)?;
    append_parts(&[b"\n".as_slice()], out)
}

// The line of one copy of mail.
fn append_mail_copy(
    directory: &Directory,
    workers: u8,
    key: CopyKey,
    mailbox: u8,
    size: usize,
    verdict: Verdict,
    out: &mut Vec<u8>,
) -> Result<(), AllocError>
    ensures { OnOk result (out.new.items ≡ out.old.items
        ++ copy_line directory.now.homes (Caller.Mail (call_number workers key.seat key.serial))
        key.message mailbox (Some size) verdict) }
{
    let caller = Caller::Mail(call_number(workers, key.seat, key.serial));
    append_copy(
        directory,
        caller,
        key.message,
        mailbox,
        Some(size),
        verdict,
        out,
    )
}

/// A line for each copy of a message of mail, in the order of its recipients, with the verdict on it: the number of the connection, by the
/// copy's key; that of the message; the mailbox; and the UID under which it was stored and its size, or why it was refused.
///
/// Errors: `AllocError` where memory was refused; some of the lines may stand in `out` then.
pub fn append_message(
    directory: &Directory,
    workers: u8,
    message: &Submission,
    verdicts: &[Verdict],
    out: &mut Vec<u8>,
) -> Result<(), AllocError>
    // There is a mailbox, and a verdict, for each of the message's recipients.
    requires mailboxes { vec_len message.now.mailboxes ≡ vec_len message.now.keys }
    requires verdicts { length verdicts.now ≡ vec_len message.now.keys }

    // Behind what was there stands the line of each copy, and nothing else.
    ensures { OnOk result (out.new.items ≡ out.old.items
        ++ mail_lines directory.now.homes workers
        (zip (copies_of (submission_of message.now)) verdicts.now)) }
{
    let size = message.text.as_slice().len();
    for i in 0..verdicts.len() {
        append_mail_copy(
            directory,
            workers,
            message.keys[i],
            message.mailboxes[i],
            size,
            verdicts[i],
            out,
        )?;
    }
    Ok(())
}

// What happened, in words.
fn words(what: Happened) -> &'static [u8]
    ensures { result.now ≡ happened_words what }
{
    match what {
        Happened::Open => b"open",
        Happened::Idle => b"idle",
        Happened::Quit => b"quit",
        Happened::Gone => b"gone",
        Happened::Lapsed => b"lapsed",
        Happened::TurnedAway => b"turned away",
        Happened::Shut => b"shut",
        Happened::Broken => b"broken",
        Happened::OutOfMemory => b"out of memory",
        Happened::Torn => b"torn",
    }
}

/// A line of what happened to a call.
///
/// Errors: `AllocError` where memory was refused; a part of the line may stand in `out` then.
pub fn append_call(caller: Caller<'_>, what: Happened, out: &mut Vec<u8>) -> Result<(), AllocError>
    ensures { OnOk result (out.new.items ≡ out.old.items ++ call_line caller.entry what) }
{
    append_caller(caller, out)?;
    append_parts(&[b" ".as_slice(), words(what), b"\n".as_slice()], out)
}
