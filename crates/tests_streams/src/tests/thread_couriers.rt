//! Sessions whose clients append messages, over couriers that bring a verdict, or none. What they are
//! told is written in RFC 9051, 6.3.12 and 7.1, and in RFC 4315, 3.

ghost use Rattle.std.specs.Prelude.{◌≡◌};

use super::couriers::{TestCourier, Way};
use super::houses::TestHouse;
use super::imap::is_greeting_and;
use super::sessions::{Tally, folders, saying, store_of, two_mailboxes};
use house_history::{Naming, Opened};
use imap_session::Store;
use mailbox::MailFault;
use session_thread::live;
use settings::Step;
use std::alloc::{AllocError, Global};
use std::marker::Brand;
use std::sync::Wait;
use workers_sync::Lost;

// How a session came to its end.
#[derive(Clone, Copy, PartialEq, Eq)]
struct Ending {
    lived: Result<(), Lost>,
    // So many messages were carried.
    carried: u32,
    // So often it was asked to pass, for the courier's events too.
    passes: u64,
}

struct Case {
    // The most bytes of a message.
    most: Option<u32>,
    way: Way,
    pieces: &'static [&'static [u8]],
    // What is said behind the greeting.
    told: &'static [u8],
    ending: Ending,
}

const ONE_CARRIED: Ending = Ending {
    lived: Ok(()),
    carried: 1,
    passes: 1,
};

// Messages of at most 64 bytes are taken, and delivered.
const DELIVERS: Case = Case {
    most: Some(64),
    way: Way::Delivers,
    pieces: &[],
    told: b"",
    ending: ONE_CARRIED,
};

const CASES: &[Case] = &[
    // What stands behind a message in the same piece is answered behind its verdict.
    Case {
        pieces: &[b"a1 APPEND INBOX {5+}\r\nhello\r\na2 NOOP\r\na3"],
        told: b"a1 OK [APPENDUID 7 1] APPEND completed\r\na2 OK NOOP completed\r\n",
        ending: Ending {
            passes: 2,
            ..ONE_CARRIED
        },
        ..DELIVERS
    },
    // A literal is asked for, its bytes come in two pieces, and the message has its flags.
    Case {
        pieces: &[
            b"a1 APPEND INBOX (\\Seen \\Flagged) {5}\r\n",
            b"hel",
            b"lo\r\na2 EXAMINE INBOX\r\na3 FETCH 1 (FLAGS BODY.PEEK[])\r\n",
        ],
        told: b"+ ready\r\n\
          a1 OK [APPENDUID 7 1] APPEND completed\r\n\
          * FLAGS (\\Answered \\Flagged \\Deleted \\Seen \\Draft)\r\n\
          * 1 EXISTS\r\n\
          * OK [UIDVALIDITY 7] UIDs valid\r\n\
          * OK [UIDNEXT 2] Predicted next UID\r\n\
          * OK [PERMANENTFLAGS ()] Flags kept\r\n\
          * LIST () \"/\" INBOX\r\n\
          a2 OK [READ-ONLY] EXAMINE completed\r\n\
          * 1 FETCH (FLAGS (\\Flagged \\Seen) BODY[] {5}\r\n\
          hello)\r\n\
          a3 OK FETCH completed\r\n",
        ending: Ending {
            passes: 5,
            ..ONE_CARRIED
        },
        ..DELIVERS
    },
    // Two messages in one piece: each verdict is answered before the next message is taken, and nothing
    // behind LOGOUT is.
    Case {
        pieces: &[
            b"a1 SELECT INBOX\r\n",
            b"a2 APPEND INBOX {1+}\r\nx\r\na3 APPEND INBOX {1+}\r\ny\r\na4 LOGOUT\r\na5 APPEND INBOX {1+}\r\nz\r\n",
        ],
        told: b"* FLAGS (\\Answered \\Flagged \\Deleted \\Seen \\Draft)\r\n\
          * 0 EXISTS\r\n\
          * OK [UIDVALIDITY 7] UIDs valid\r\n\
          * OK [UIDNEXT 1] Predicted next UID\r\n\
          * OK [PERMANENTFLAGS (\\Answered \\Flagged \\Deleted \\Seen \\Draft)] Flags kept\r\n\
          * LIST () \"/\" INBOX\r\n\
          a1 OK [READ-WRITE] SELECT completed\r\n\
          * 1 EXISTS\r\n\
          a2 OK [APPENDUID 7 1] APPEND completed\r\n\
          * 2 EXISTS\r\n\
          a3 OK [APPENDUID 7 2] APPEND completed\r\n\
          * BYE Logging out\r\n\
          a4 OK LOGOUT completed\r\n",
        ending: Ending {
            lived: Ok(()),
            carried: 2,
            passes: 8,
        },
        ..DELIVERS
    },
    Case {
        way: Way::Refuses,
        pieces: &[b"a1 APPEND INBOX {1+}\r\nx\r\na2 NOOP\r\n"],
        told: b"a1 NO Shard full\r\na2 OK NOOP completed\r\n",
        ending: ONE_CARRIED,
        ..DELIVERS
    },
    // Nothing is said of a message on which no verdict comes, nor of what stands behind it.
    Case {
        way: Way::Loses(Lost::Torn),
        pieces: &[
            b"a1 EXAMINE INBOX\r\na2 APPEND INBOX {1+}\r\nx\r\na3 NOOP\r\n",
            b"a4 NOOP\r\n",
        ],
        told: b"* FLAGS (\\Answered \\Flagged \\Deleted \\Seen \\Draft)\r\n\
          * 0 EXISTS\r\n\
          * OK [UIDVALIDITY 7] UIDs valid\r\n\
          * OK [UIDNEXT 1] Predicted next UID\r\n\
          * OK [PERMANENTFLAGS ()] Flags kept\r\n\
          * LIST () \"/\" INBOX\r\n\
          a1 OK [READ-ONLY] EXAMINE completed\r\n",
        ending: Ending {
            lived: Err(Lost::Torn),
            carried: 1,
            passes: 3,
        },
        ..DELIVERS
    },
    Case {
        way: Way::Loses(Lost::NoMemory),
        pieces: &[b"a1 NOOP\r\na2 APPEND INBOX {1+}\r\nx\r\na3 NOOP\r\n"],
        told: b"a1 OK NOOP completed\r\n",
        ending: Ending {
            lived: Err(Lost::NoMemory),
            carried: 1,
            passes: 1,
        },
        ..DELIVERS
    },
    // Where no message is taken its bytes are dropped, and nobody is asked to carry it.
    Case {
        most: None,
        pieces: &[b"a1 APPEND INBOX {5+}\r\nhello\r\na2 NOOP\r\n"],
        told: b"a1 NO [CANNOT] Not offered here\r\na2 OK NOOP completed\r\n",
        ending: Ending {
            lived: Ok(()),
            carried: 0,
            passes: 0,
        },
        ..DELIVERS
    },
];

fn steps_of(alloc: Global, pieces: &[&[u8]]) -> Result<Vec<Step>, AllocError> {
    let mut steps = Vec::new(alloc);
    for piece in pieces {
        saying(alloc, &mut steps, piece)?;
    }
    Ok(steps)
}

// How a session ends that lives through these steps; none where its courier was given a message out of
// order, or its mailbox wasn't left.
fn ending_of<B: Naming, R: Wait>(
    rt: &R,
    alloc: Global,
    house: &TestHouse<B>,
    case: &Case,
    steps: &[Step],
    said: &mut Vec<u8>,
) -> Option<Ending> {
    let Ok(folders) = folders(alloc) else {
        return None;
    };
    let tally = Tally::new();
    let mut courier = TestCourier::new(rt, house, case.way);
    let mut store = store_of(rt, &tally, 0, house, &[]);
    let lived = live(
        alloc,
        &mut store,
        &mut courier,
        folders,
        case.most,
        steps,
        0,
        said,
    );
    let passes = tally.asked();
    if !courier.are_in_order || store.leave(false) != Err(MailFault::Stranger) {
        return None;
    }
    Some(Ending {
        lived,
        carried: courier.asked,
        passes,
    })
}

fn is_as_wanted<B: Naming, R: Wait>(
    rt: &R,
    alloc: Global,
    history: Opened,
    case: &Case,
) -> Result<bool, AllocError>
    requires { history ≡ B.book }
{
    let house = two_mailboxes::<B>(alloc, history)?;
    let steps = steps_of(alloc, case.pieces)?;
    let mut said = Vec::new(alloc);
    let ending = ending_of(rt, alloc, &house, case, &steps, &mut said);
    Ok(ending == Some(case.ending) && is_greeting_and(&said, case.told))
}

#[test]
fn a_message_is_carried_before_anything_more_is_taken(rt: HostRuntime) -> Result<(), AllocError> {
    for (number, case) in CASES.iter().enumerate() {
        let (alloc, history) = (rt.alloc(), Opened::new());
        let is_wanted = is_as_wanted::<Brand, HostRuntime>(&rt, alloc, history, case)?;
        assert!(rt; is_wanted, "case {number}");
    }
    Ok(())
}
