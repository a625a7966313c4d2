//! What a connection answers to whoever brings its bytes: how many it took, and what its client may send next. What it says is shown by scripts.

use crate::sessions::{folders, standard};
use crate::stores::store;
use delivery_token::{Refusal, Verdict};
use house::CoreStore;
use imap_session::{After, ImapConnection, Progress};
use std::alloc::{AllocError, Global};

fn connection(alloc: Global) -> Result<ImapConnection, AllocError> {
    ImapConnection::new(alloc, folders(alloc)?, standard(Some(1_048_576)))
}

// What is done with a connection, and what is wanted of it.
#[derive(Clone, Copy)]
enum Step {
    // Of a piece so many bytes are taken, and the client may send this then.
    Takes(&'static [u8], usize, After),
    // The message that was submitted has this text, and is refused.
    Refuses(&'static [u8]),
    // What was said since this was last asked.
    Said(&'static [u8]),
    HasEnded(bool),
    HasSelectedNone,
}

// Whether of a piece so many bytes are taken, and the client may send this then.
fn takes(
    alloc: Global,
    connection: &mut ImapConnection,
    store: &mut CoreStore,
    piece: &[u8],
    wanted: Progress,
    out: &mut Vec<u8>,
) -> bool {
    if connection.has_ended() || connection.awaits_verdict() {
        return false;
    }
    connection.take(alloc, piece, store, out) == wanted
}

// Refuses the message that was submitted, which is to have this text.
fn refuses(
    connection: &mut ImapConnection,
    store: &mut CoreStore,
    text: &[u8],
    out: &mut Vec<u8>,
) -> bool {
    let is_as_sent = match connection.submission() {
        None => false,
        Some(append) => append.text.as_slice() == text,
    };
    let refused = Verdict::Refused(Refusal::Full);
    is_as_sent
        && connection.awaits_verdict()
        && connection.appended(refused, store, out) == Ok(After::Go)
}

// What was said since this was last asked.
fn said(out: &mut Vec<u8>, wanted: &[u8]) -> bool {
    let is_said = out.as_slice() == wanted;
    out.clear();
    is_said
}

// Whether a step comes to what is wanted.
fn goes(
    alloc: Global,
    connection: &mut ImapConnection,
    store: &mut CoreStore,
    step: Step,
    out: &mut Vec<u8>,
) -> bool {
    match step {
        Step::Takes(piece, used, after) => {
            let wanted = Progress {
                used,
                after: Some(after),
            };
            takes(alloc, connection, store, piece, wanted, out)
        }
        Step::Refuses(text) => refuses(connection, store, text, out),
        Step::Said(wanted) => said(out, wanted),
        Step::HasEnded(wanted) => connection.has_ended() == wanted,
        Step::HasSelectedNone => connection.selected().is_none(),
    }
}

// The first step that doesn't come to what is wanted.
fn first_unlike(
    alloc: Global,
    connection: &mut ImapConnection,
    store: &mut CoreStore,
    steps: &[Step],
    out: &mut Vec<u8>,
) -> Option<usize> {
    for (position, step) in steps.iter().enumerate() {
        if !goes(alloc, connection, store, *step, out) {
            return Some(position);
        }
    }
    None
}

// Lines and an IDLE in pieces; a literal that ends with its piece, whose line's end comes in two more, and behind which nothing is taken before the verdict;
// and what follows the end is left.
const IN_PIECES: &[Step] = &[
    Step::Takes(b"a1 CAPA", 7, After::Go),
    Step::Takes(b"", 0, After::Go),
    Step::Takes(b"BILITY\r", 7, After::Go),
    Step::Takes(b"\na2 IDLE\r\nDO", 12, After::Idle),
    Step::Takes(b"NE\r", 3, After::Idle),
    Step::Takes(b"\na3 CLO", 7, After::Go),
    Step::Said(
        b"* CAPABILITY IMAP4rev2 IDLE\r\na1 OK CAPABILITY completed\r\n+ idling\r\na2 OK IDLE completed\r\n",
    ),
    Step::HasSelectedNone,
    Step::Takes(b"SE\r\na4 APPEND INBOX {2+}\r\nok", 28, After::Literal(0)),
    Step::Takes(b"", 0, After::Literal(0)),
    Step::Takes(b"\r", 1, After::Literal(0)),
    Step::Takes(b"\na5 NOOP\r\n", 1, After::Submit),
    Step::Said(b"a3 BAD Wrong state\r\n"),
    Step::Refuses(b"ok"),
    Step::Said(b"a4 NO Shard full\r\n"),
    Step::HasEnded(false),
    Step::Takes(b"a6 LOGOUT\r\na7 CAPABILITY\r\n", 11, After::Bye),
    Step::HasEnded(true),
    Step::Said(b"* BYE Logging out\r\na6 OK LOGOUT completed\r\n"),
];

fn played_with(
    alloc: Global,
    connection: &mut ImapConnection,
    steps: &[Step],
) -> Result<Option<usize>, AllocError> {
    let mut store = store(alloc)?;
    Ok(first_unlike(alloc, connection, &mut store, steps, &mut Vec::new(alloc)))
}

#[test]
fn pieces_are_taken(rt: HostRuntime) -> Result<(), AllocError> {
    let mut connection = connection(rt.alloc())?;
    assert_eq!(rt;
        played_with(rt.alloc(), &mut connection, IN_PIECES),
        Ok(None)
    );
    Ok(())
}
