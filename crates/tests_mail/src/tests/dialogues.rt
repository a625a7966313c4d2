//! Whole connections, byte for byte. What is expected is what a client sees on the wire.

ghost use Rattle.std.specs.Prelude.{◌≡◌, ◌≤◌, [], length, IfOk, OnOk};

use budget::Budget;
use delivery_token::{CopyKey, Refusal, Verdict};
use envelope::{Directory, DirectoryFault};
use lmtp_machine::{Fed, Limits, LmtpMachine, Submission, What};
use std::alloc::{AllocError, Global};

const GREETED: &[u8] =
    b"220 mx.example.org LMTP ready\r\n250-mx.example.org\r\n250-PIPELINING\r\n250-ENHANCEDSTATUSCODES\r\n250 8BITMIME\r\n";

fn house(alloc: Global) -> Result<Directory, DirectoryFault> {
    Directory::new(
        alloc,
        &[b"example.org".as_slice()],
        &[b"alice".as_slice(), b"bob".as_slice()],
        1,
    )
}

// Feeds a piece, and answers what is submitted: the first copy by `first`, the others as stored.
fn hear(
    alloc: Global,
    machine: &mut LmtpMachine,
    directory: &Directory,
    piece: &[u8],
    first: Verdict,
    out: &mut Vec<u8>,
) -> Result<Fed, DirectoryFault>
    requires { machine.old.pending ≡ [] }
    ensures used { IfOk result (λ fed. fed.used ≤ length piece.now) }
    ensures quiet { OnOk result (machine.new.pending ≡ []) }
{
    let fed = machine.feed(piece, directory, out)?;
    if let What::Submit = fed.what {
        let copies = machine.submission().keys.len();
        let mut verdicts = Vec::with_capacity(alloc, copies)?;
        for i in 0..copies {
            verdicts.push_reserved(if i == 0 { first } else { STORED });
        }
        machine.answer(verdicts.as_slice(), out)?;
    }
    Ok(fed)
}

// Feeds all these bytes, in pieces of this size.
fn hear_all(
    alloc: Global,
    machine: &mut LmtpMachine,
    directory: &Directory,
    pieces: (&[u8], usize),
    first: Verdict,
    out: &mut Vec<u8>,
) -> Result<(), DirectoryFault>
    requires { machine.old.pending ≡ [] }
    ensures { OnOk result (machine.new.pending ≡ []) }
{
    let (mut rest, size) = pieces;
    for _turn in 0..rest.len() {
        let piece = &rest[..size.min(rest.len())];
        let fed = hear(alloc, machine, directory, piece, first, out)?;
        rest = &rest[fed.used..];
    }
    Ok(())
}

// All that is said on a connection whose bytes come in pieces of this size.
fn converse(
    alloc: Global,
    max_message: usize,
    first: Verdict,
    pieces: (&[u8], usize),
    out: &mut Vec<u8>,
) -> Result<(), DirectoryFault> {
    let directory = house(alloc)?;
    let limits = Limits {
        host: b"mx.example.org",
        max_message,
        budget: &Budget::unlimited(),
    };
    let mut machine = LmtpMachine::new(alloc, 0, 0, limits)?;
    machine.greet(out)?;
    hear_all(alloc, &mut machine, &directory, pieces, first, out)
}

const STORED: Verdict = Verdict::Stored { uid: 1 };

// A connection: the most bytes of a message, the verdict of the first copy, the size of the pieces, what is said, and what is replied
// after the reply to LHLO.
struct Dialogue {
    max_message: usize,
    first: Verdict,
    size: usize,
    bytes: &'static [u8],
    replied: &'static [u8],
}

const FIRST_MESSAGE: Dialogue = Dialogue {
    max_message: 1048576,
    first: STORED,
    size: 1,
    bytes: b"LHLO c.example\r\nMAIL FROM:<s@a.example>\r\nRCPT TO:<alice@example.org>\r\nDATA\r\nhi\r\n.\r\nQUIT\r\n",
    replied: b"250 2.1.0 Sender OK\r\n250 2.1.5 Recipient OK\r\n354 Start mail input\r\n250 2.1.5 Delivered\r\n221 2.0.0 Bye\r\n",
};

const TWO_RECIPIENTS: Dialogue = Dialogue {
    max_message: 1048576,
    first: Verdict::Refused(Refusal::MailboxFull),
    size: 1000,
    bytes: b"LHLO c.example\r\nMAIL FROM:<s@a.example>\r\nRCPT TO:<alice@example.org>\r\nRCPT TO:<carol@example.org>\r\nRCPT TO:<alice@example.org>\r\nDATA\r\nhi\r\n.\r\n",
    replied: b"250 2.1.0 Sender OK\r\n250 2.1.5 Recipient OK\r\n550 5.1.1 Mailbox unknown\r\n250 2.1.5 Recipient OK\r\n354 Start mail input\r\n452 4.2.2 Mailbox full\r\n250 2.1.5 Delivered\r\n",
};

const TOO_BIG_AND_NUL: Dialogue = Dialogue {
    max_message: 3,
    first: STORED,
    size: 1,
    bytes: b"LHLO c.example\r\nMAIL FROM:<s@a.example>\r\nRCPT TO:<alice@example.org>\r\nDATA\r\nhi\r\n.\r\nMAIL FROM:<s@a.example>\r\nRCPT TO:<alice@example.org>\r\nDATA\r\n\0\r\n.\r\n",
    replied: b"250 2.1.0 Sender OK\r\n250 2.1.5 Recipient OK\r\n354 Start mail input\r\n552 5.3.4 Message too big\r\n250 2.1.0 Sender OK\r\n250 2.1.5 Recipient OK\r\n354 Start mail input\r\n554 5.6.0 NUL byte\r\n",
};

const FULL: Dialogue = Dialogue {
    max_message: 100,
    first: Verdict::Refused(Refusal::Full),
    size: 1000,
    bytes: b"LHLO c.example\r\nMAIL FROM:<s@a.example>\r\nRCPT TO:<alice@example.org>\r\nDATA\r\nhi\r\n.\r\n",
    replied: b"250 2.1.0 Sender OK\r\n250 2.1.5 Recipient OK\r\n354 Start mail input\r\n452 4.3.1 Shard full\r\n",
};

const DIALOGUES: &[Dialogue] = &[
    FIRST_MESSAGE,
    Dialogue {
        size: 7,
        ..FIRST_MESSAGE
    },
    Dialogue {
        size: 1000,
        ..FIRST_MESSAGE
    },
    TWO_RECIPIENTS,
    TOO_BIG_AND_NUL,
    Dialogue {
        size: 1000,
        ..TOO_BIG_AND_NUL
    },
    // Each refusal has its reply.
    FULL,
    Dialogue {
        first: Verdict::Refused(Refusal::MailboxFull),
        replied: b"250 2.1.0 Sender OK\r\n250 2.1.5 Recipient OK\r\n354 Start mail input\r\n452 4.2.2 Mailbox full\r\n",
        ..FULL
    },
    Dialogue {
        first: Verdict::Refused(Refusal::NoMemory),
        replied: b"250 2.1.0 Sender OK\r\n250 2.1.5 Recipient OK\r\n354 Start mail input\r\n451 4.3.0 Out of memory\r\n",
        ..FULL
    },
    Dialogue {
        first: Verdict::Refused(Refusal::UidSpent),
        replied: b"250 2.1.0 Sender OK\r\n250 2.1.5 Recipient OK\r\n354 Start mail input\r\n554 5.2.0 No UID left\r\n",
        ..FULL
    },
    Dialogue {
        first: Verdict::Refused(Refusal::Shut),
        replied: b"250 2.1.0 Sender OK\r\n250 2.1.5 Recipient OK\r\n354 Start mail input\r\n450 4.2.1 Shard closed\r\n",
        ..FULL
    },
];

// Whether the replies are those wanted, no byte less or more.
fn goes(alloc: Global, dialogue: &Dialogue) -> Result<bool, DirectoryFault> {
    let mut out = Vec::new(alloc);
    converse(
        alloc,
        dialogue.max_message,
        dialogue.first,
        (dialogue.bytes, dialogue.size),
        &mut out,
    )?;
    Ok(out.strip_prefix(GREETED) == Some(dialogue.replied))
}

#[test]
fn each_dialogue_goes_as_wanted(rt: HostRuntime) -> Result<(), DirectoryFault> {
    for dialogue in DIALOGUES {
        let went = goes(rt.alloc(), dialogue)?;
        assert!(rt; went, "{:?} {}", dialogue.first, dialogue.size);
    }
    Ok(())
}

// So many times the same line.
fn add_lines(lines: &mut Vec<u8>, count: usize, line: &[u8]) -> Result<(), AllocError> {
    for _ in 0..count {
        lines.extend_from_slice(line)?;
    }
    Ok(())
}

// One recipient too many, and a message for the 100 before.
fn to_101(alloc: Global) -> Result<Vec<u8>, AllocError> {
    let mut bytes = Vec::from_slice(alloc, b"LHLO c.example\r\nMAIL FROM:<s@a.example>\r\n")?;
    add_lines(&mut bytes, 101, b"RCPT TO:<alice@example.org>\r\n")?;
    bytes.extend_from_slice(b"DATA\r\nhi\r\n.\r\n")?;
    Ok(bytes)
}

fn told_of_101(alloc: Global) -> Result<Vec<u8>, AllocError> {
    let mut wanted = Vec::from_slice(alloc, GREETED)?;
    wanted.extend_from_slice(b"250 2.1.0 Sender OK\r\n")?;
    add_lines(&mut wanted, 100, b"250 2.1.5 Recipient OK\r\n")?;
    wanted.extend_from_slice(b"452 4.5.3 Too many recipients\r\n354 Start mail input\r\n")?;
    add_lines(&mut wanted, 100, b"250 2.1.5 Delivered\r\n")?;
    Ok(wanted)
}

fn is_told_of_101(alloc: Global) -> Result<bool, DirectoryFault> {
    let bytes = to_101(alloc)?;
    let wanted = told_of_101(alloc)?;
    let mut out = Vec::new(alloc);
    converse(alloc, 1_048_576, STORED, (&bytes, 4096), &mut out)?;
    Ok(out.as_slice() == wanted.as_slice())
}

#[test]
fn a_transaction_has_100_recipients(rt: HostRuntime) -> Result<(), DirectoryFault> {
    assert!(rt; is_told_of_101(rt.alloc())?);
    Ok(())
}

const OPENING: &[u8] =
    b"LHLO c.example\r\nMAIL FROM:<s@a.example>\r\nRCPT TO:<bob@example.org>\r\nDATA\r\n";

// The second mailbox's one copy, by the keys of its seat, and this text.
fn is_to_bob(message: &Submission, text: &[u8]) -> bool {
    let key = CopyKey {
        seat: 3,
        serial: 9,
        message: 0,
        recipient: 0,
    };
    message.mailboxes.as_slice() == [1].as_slice()
        && message.keys.as_slice() == [key].as_slice()
        && message.text.as_slice() == text
}

// Hears the opening and these bytes.
fn hear_opening(
    alloc: Global,
    machine: &mut LmtpMachine,
    directory: &Directory,
    begun: &[u8],
    out: &mut Vec<u8>,
) -> Result<(), DirectoryFault>
    requires { machine.old.pending ≡ [] }
    ensures { OnOk result (machine.new.pending ≡ []) }
{
    hear_all(alloc, machine, directory, (OPENING, 4096), STORED, out)?;
    hear_all(alloc, machine, directory, (begun, 4096), STORED, out)
}

// How many of these bytes are used and how long the text is, where a submission of this text comes of them; 0 where it doesn't.
fn submits(
    machine: &mut LmtpMachine,
    directory: &Directory,
    bytes: &[u8],
    text: &[u8],
    out: &mut Vec<u8>,
) -> Result<(usize, usize), DirectoryFault>
    requires { machine.old.pending ≡ [] }
{
    let fed = machine.feed(bytes, directory, out)?;
    match fed.what {
        What::Submit if is_to_bob(machine.submission(), text) => Ok((
            fed.used,
            machine.submission().text.as_slice().len(),
        )),
        _ => Ok((0, 0)),
    }
}

// Whether it says so where it shuts down, and hears nothing after.
fn shuts(
    machine: &mut LmtpMachine,
    directory: &Directory,
    out: &mut Vec<u8>,
) -> Result<bool, DirectoryFault> {
    out.clear();
    machine.shut(out)?;
    let over = Fed {
        used: 0,
        what: What::Quit,
    };
    let fed = machine.feed(b"NOOP\r\n", directory, out)?;
    Ok(fed == over && out.as_slice() == b"421 4.3.2 Shutting down\r\n".as_slice())
}

// What `submits` answers, and whether the machine shuts down after.
fn submits_and_shuts(
    alloc: Global,
    machine: &mut LmtpMachine,
    directory: &Directory,
    said: (&[u8], &[u8], &[u8]),
    out: &mut Vec<u8>,
) -> Result<((usize, usize), bool), DirectoryFault>
    requires { machine.old.pending ≡ [] }
{
    let (begun, bytes, text) = said;
    hear_opening(alloc, machine, directory, begun, out)?;
    let submitted = submits(machine, directory, bytes, text, out)?;
    let is_shut = shuts(machine, directory, out)?;
    Ok((submitted, is_shut))
}

fn submitted(
    alloc: Global,
    directory: &Directory,
    said: (&[u8], &[u8], &[u8]),
) -> Result<((usize, usize), bool), DirectoryFault> {
    let limits = Limits {
        host: b"mx.example.org",
        max_message: 100,
        budget: &Budget::unlimited(),
    };
    let mut machine = LmtpMachine::new(alloc, 3, 9, limits)?;
    submits_and_shuts(alloc, &mut machine, directory, said, &mut Vec::new(alloc))
}

// What is said after DATA in pieces of its own, the piece that ends the message and how many of its bytes are used, and the text and its size.
const SUBMITTED: &[(&[u8], &[u8], usize, &[u8], usize)] = &[
    (
        b"..x\r\n",
        b".\r\nQUIT\r\n",
        3,
        b"Return-Path: <s@a.example>\r\n.x\r\n",
        32,
    ),
    (b"", b".\r\n", 3, b"Return-Path: <s@a.example>\r\n", 28),
    (
        b"",
        b"..\r\n..x\r\nx.\r\n.\r\n",
        16,
        b"Return-Path: <s@a.example>\r\n.\r\n.x\r\nx.\r\n",
        39,
    ),
    (
        b"",
        b"..\r\n.x\r\nx.\r\n.\r\n",
        15,
        b"Return-Path: <s@a.example>\r\n.\r\nx\r\nx.\r\n",
        38,
    ),
    (
        b"",
        b"a\n.\r\n\n.\nb\r\n.\r\n",
        14,
        b"Return-Path: <s@a.example>\r\na\n.\r\n\n.\nb\r\n",
        39,
    ),
];

// The position of the first of these at which something else is submitted.
fn first_unlike(alloc: Global, directory: &Directory) -> Result<Option<usize>, DirectoryFault> {
    for (position, (begun, bytes, used, text, size)) in SUBMITTED.iter().enumerate() {
        if submitted(alloc, directory, (begun, bytes, text))? != ((*used, *size), true) {
            return Ok(Some(position));
        }
    }
    Ok(None)
}

#[test]
fn what_is_submitted(rt: HostRuntime) -> Result<(), DirectoryFault> {
    let directory = house(rt.alloc())?;
    assert_eq!(rt; first_unlike(rt.alloc(), &directory)?, None);
    Ok(())
}
