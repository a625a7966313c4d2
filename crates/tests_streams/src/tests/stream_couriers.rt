//! Clients that append messages, over couriers that bring a verdict, or none. What they are told is
//! written in RFC 9051, 6.3.12, and in RFC 4315, 3.

ghost use Rattle.std.specs.Prelude.{◌≡◌, false};

use super::couriers::{TestCourier, Way};
use super::houses::TestHouse;
use super::imap::{a_mailbox, attend_one, is_greeting_and, open};
use super::wires::{Prompt, Tally, Wire};
use house_history::{Naming, Opened};
use imap_session::After;
use imap_stream::{Visit, VisitFault};
use std::alloc::{AllocError, Global};
use std::marker::Brand;
use std::sync::atomic::AtomicBool;
use std::sync::{Mutex, Wait};
use workers_sync::Lost;

// The most bytes of a message.
const MOST: u32 = 64;

type Answers = (Result<After, VisitFault>, Result<After, VisitFault>);

struct Case {
    way: Way,
    // The client's bytes, in two pieces.
    first: &'static [u8],
    second: &'static [u8],
    // What the visit answers to each, and how many messages it gave to its courier.
    wanted: Option<(Answers, u32)>,
    // What is said behind the greeting.
    told: &'static [u8],
}

const CASES: &[Case] = &[
    // What stands behind a message in the same piece is answered behind its verdict.
    Case {
        way: Way::Delivers,
        first: b"a1 APPEND INBOX {5+}\r\nhello\r\na2 NOOP\r\n",
        second: b"a3 LOGOUT\r\n",
        wanted: Some(((Ok(After::Go), Ok(After::Bye)), 1)),
        told: b"a1 OK [APPENDUID 7 1] APPEND completed\r\n\
          a2 OK NOOP completed\r\n\
          * BYE Logging out\r\n\
          a3 OK LOGOUT completed\r\n",
    },
    // The literal is cut.
    Case {
        way: Way::Delivers,
        first: b"a1 APPEND INBOX (\\Seen) {5+}\r\nhe",
        second: b"llo\r\na2 IDLE\r\n",
        wanted: Some(((Ok(After::Literal(3)), Ok(After::Idle)), 1)),
        told: b"a1 OK [APPENDUID 7 1] APPEND completed\r\n+ idling\r\n",
    },
    // Where no verdict comes, what was said before is sent, and the visit is over.
    Case {
        way: Way::Loses(Lost::Torn),
        first: b"a1 NOOP\r\na2 APPEND INBOX {1+}\r\nx\r\na3 NOOP\r\n",
        second: b"a4 NOOP\r\n",
        wanted: Some(((Err(VisitFault::Torn), Ok(After::Bye)), 1)),
        told: b"a1 OK NOOP completed\r\n",
    },
    Case {
        way: Way::Loses(Lost::NoMemory),
        first: b"a1 NOOP\r\na2 APPEND INBOX {1+}\r\nx\r\na3 NOOP\r\n",
        second: b"a4 NOOP\r\n",
        wanted: Some(((Err(VisitFault::NoMemory), Ok(After::Bye)), 1)),
        told: b"a1 OK NOOP completed\r\n",
    },
];

// What a visit answers to two pieces.
fn answers<B: Naming, R: Wait>(
    alloc: Global,
    visit: &mut Visit<'_, B, R, Tally, Wire<'_, R>>,
    courier: &mut TestCourier<'_, B, R>,
    case: &Case,
) -> Answers {
    let idles = AtomicBool::new(false);
    let first = visit.hear(alloc, courier, case.first, &idles);
    let second = visit.hear(alloc, courier, case.second, &idles);
    let _ = visit.leave();
    (first, second)
}

// The same, and how many messages it gave to its courier.
fn visited<'x, B: Naming, R: Wait>(
    rt: &'x R,
    alloc: Global,
    house: &'x TestHouse<B>,
    case: &Case,
    tally: &'x Tally,
    wire: Wire<'x, R>,
) -> Option<(Answers, u32)>
    requires { wire.has_failed ≡ false }
{
    let mut courier = TestCourier::new(rt, house, case.way);
    let Some(mut visit) = open(rt, alloc, house, tally, Some(MOST), wire) else {
        return None;
    };
    let answered = answers(alloc, &mut visit, &mut courier, case);
    Some((answered, courier.asked))
}

fn is_as_wanted<B: Naming, R: Wait>(
    rt: &R,
    alloc: Global,
    history: Opened,
    case: &Case,
) -> Result<bool, AllocError>
    requires { history ≡ B.book }
{
    let house = a_mailbox::<B, R>(rt, alloc, history, false)?;
    let told = Mutex::new(Vec::new(alloc));
    let tally = Tally::new();
    let wire = Wire::new(rt, &told, 9);
    let answered = visited(rt, alloc, &house, case, &tally, wire);
    Ok(answered == case.wanted && is_greeting_and(&told.into_inner(), case.told))
}

#[test]
fn a_visit_answers_verdicts(rt: HostRuntime) -> Result<(), AllocError> {
    for (number, case) in CASES.iter().enumerate() {
        let (alloc, history) = (rt.alloc(), Opened::new());
        let is_wanted = is_as_wanted::<Brand, HostRuntime>(&rt, alloc, history, case)?;
        assert!(rt; is_wanted, "case {number}");
    }
    Ok(())
}

// Attends a client that sends these bytes, which are read in pieces of 16: how many messages it gave to its
// courier; none where the client slot wasn't free.
fn attend<'x, B: Naming, R: Wait>(
    rt: &'x R,
    alloc: Global,
    house: &'x TestHouse<B>,
    way: Way,
    bytes: &[u8],
    visit: Visit<'x, B, R, Tally, Wire<'x, R>>,
) -> Option<u32> {
    let mut courier = TestCourier::new(rt, house, way);
    let (mut input, never) = (bytes, AtomicBool::new(false));
    let mut input = Prompt { input: &mut input };
    let parting = attend_one(rt, alloc, visit, &mut courier, &mut input, 16, &never);
    if parting.is_some() {
        Some(courier.asked)
    } else {
        None
    }
}

// Whether a client that sends these bytes is told this, and that many messages are carried.
fn is_attended<B: Naming, R: Wait>(
    rt: &R,
    alloc: Global,
    history: Opened,
    way: Way,
    bytes: &[u8],
    carried: u32,
    rest: &[u8],
) -> Result<bool, AllocError>
    requires { history ≡ B.book }
{
    let house = a_mailbox::<B, R>(rt, alloc, history, false)?;
    let told = Mutex::new(Vec::new(alloc));
    let tally = Tally::new();
    let wire = Wire::new(rt, &told, 9);
    let asked = match open(rt, alloc, &house, &tally, Some(MOST), wire) {
        Some(visit) => attend(rt, alloc, &house, way, bytes, visit),
        None => None,
    };
    Ok(asked == Some(carried) && is_greeting_and(&told.into_inner(), rest))
}

#[test]
fn a_client_slot_attends_a_client_that_appends(rt: HostRuntime) -> Result<(), AllocError> {
    let bytes =
        b"a1 APPEND INBOX {5+}\r\nhello\r\na2 APPEND INBOX {3}\r\nabc\r\na3 LOGOUT\r\na4 NOOP\r\n";
    let told = b"a1 OK [APPENDUID 7 1] APPEND completed\r\n\
          + ready\r\n\
          a2 OK [APPENDUID 7 2] APPEND completed\r\n\
          * BYE Logging out\r\n\
          a3 OK LOGOUT completed\r\n";
    let history = Opened::new();
    let alloc = rt.alloc();
    let way = Way::Delivers;
    assert!(rt; is_attended::<Brand, HostRuntime>(&rt, alloc, history, way, bytes, 2, told)?);
    // Nothing more is read once no verdict came.
    let (way, history) = (Way::Loses(Lost::Torn), Opened::new());
    assert!(rt; is_attended::<Brand, HostRuntime>(&rt, alloc, history, way, bytes, 1, b"")?);
    Ok(())
}
