//! What a house answers to events that no line of a script brings alone: a seat's own end, the parts of a copy's way, a turn of a session that idles; and a
//! list of events that are tried. What is done and wanted stands in tables: each line is a step, and one function goes through them, since a test with many
//! calls takes long to prove.

use exactly_once::play;
use house::{Event, House, HouseFault};
use settings::{Config, ConfigFault};
use std::alloc::Global;

// A step, and what is wanted of it.
#[derive(Clone, Copy)]
enum Step {
    // An event that is made.
    Made(Event<'static>),
    // An event that isn't made, and why.
    Refused(Event<'static>, HouseFault),
    // Events that are tried.
    Tried(&'static [Event<'static>]),
    // All settles but what the shards hold back that are marked here.
    Settled(&'static [bool]),
    // The last changes of a mailbox are printed.
    Tail(&'static [u8]),
    // What was printed since this was last asked.
    Printed(&'static [u8]),
    // So many lines were printed since then.
    PrintedLines(usize),
    // What was printed by now is no matter.
    Forget,
}

const MESSAGE: &[u8] =
    b"LHLO c.example\r\nMAIL FROM:<s@a.example>\r\nRCPT TO:<alice@example.org>\r\nDATA\r\nhi\r\n.\r\n";

const APPEND: &[u8] = b"a1 APPEND INBOX {2+}\r\nok\r\n";

// A seat puts its end into a shard's lane once, and there are seats 1 to 16. One that has put it takes connections and sessions, whose copies are refused.
const ENDED: &[Step] = &[
    Step::Made(Event::End {
        producer: 1,
        shard: 0,
    }),
    Step::Refused(
        Event::End {
            producer: 1,
            shard: 0,
        },
        HouseFault::Nothing,
    ),
    Step::Refused(
        Event::End {
            producer: 1,
            shard: 1,
        },
        HouseFault::Nobody,
    ),
    Step::Refused(
        Event::End {
            producer: 0,
            shard: 0,
        },
        HouseFault::Nobody,
    ),
    Step::Refused(
        Event::End {
            producer: 17,
            shard: 0,
        },
        HouseFault::Nobody,
    ),
    Step::Printed(b""),
    Step::Made(Event::Bytes(1, MESSAGE)),
    Step::Forget,
    Step::Made(Event::Put(1)),
    Step::Printed(b"L1 450 4.2.1 Shard closed\n"),
    Step::Made(Event::Vanish(1)),
    Step::Made(Event::Bytes(1, b"")),
    Step::Printed(b"L1 220 mx.example.org LMTP ready\n"),
    Step::Made(Event::Bytes(2, MESSAGE)),
    Step::Forget,
    Step::Made(Event::Put(2)),
    Step::Made(Event::End {
        producer: 2,
        shard: 0,
    }),
    Step::Settled(&[]),
    Step::Printed(b"L2 250 2.1.5 Delivered\n"),
    Step::Made(Event::Enter(1, b"alice")),
    Step::Made(Event::End {
        producer: 9,
        shard: 0,
    }),
    Step::Forget,
    Step::Made(Event::Say(1, APPEND)),
    Step::Made(Event::Put(9)),
    Step::Printed(b"I1 a1 NO Shard closed\n"),
];

// A shard that is shut is ended by each seat as the house settles, also while its consumer stands still.
const CLOSED: &[Step] = &[
    Step::Made(Event::Bytes(1, MESSAGE)),
    Step::Made(Event::Put(1)),
    Step::Forget,
    Step::Made(Event::Close(0)),
    Step::Made(Event::End {
        producer: 1,
        shard: 0,
    }),
    Step::Settled(&[true]),
    Step::Refused(
        Event::End {
            producer: 16,
            shard: 0,
        },
        HouseFault::Nothing,
    ),
    Step::Printed(b""),
    Step::Settled(&[]),
    Step::Printed(b"L1 250 2.1.5 Delivered\n"),
];

// A copy goes its way event by event, and nothing is done twice. Its peer is gone, and is told nothing.
const IN_ORDER: &[Step] = &[
    Step::Made(Event::Bytes(1, MESSAGE)),
    Step::Forget,
    Step::Refused(Event::Take(0), HouseFault::Nothing),
    Step::Refused(Event::Take(1), HouseFault::Nobody),
    Step::Made(Event::Vanish(1)),
    Step::Made(Event::Put(1)),
    Step::Refused(Event::Put(1), HouseFault::Nothing),
    Step::Made(Event::End {
        producer: 1,
        shard: 0,
    }),
    Step::Made(Event::Take(0)),
    Step::Made(Event::Deliver(0)),
    Step::Made(Event::Answer(0)),
    Step::Made(Event::Hear(1)),
    Step::Printed(b""),
    Step::Refused(Event::Hear(1), HouseFault::Nobody),
];

// A message that a client appends goes through its session's seat, behind those of connections; what it says meanwhile waits.
const APPENDED: &[Step] = &[
    Step::Made(Event::Enter(1, b"alice")),
    Step::Forget,
    Step::Made(Event::Say(1, APPEND)),
    Step::Refused(Event::Idle(1), HouseFault::Nothing),
    Step::Refused(Event::Hear(9), HouseFault::Nothing),
    Step::Made(Event::Say(1, b"a2 NOOP\r\n")),
    Step::Refused(Event::Put(1), HouseFault::Nobody),
    Step::Made(Event::Put(9)),
    Step::Refused(Event::Put(9), HouseFault::Nothing),
    Step::Made(Event::Take(0)),
    Step::Made(Event::Deliver(0)),
    Step::Made(Event::Answer(0)),
    Step::Printed(b""),
    Step::Made(Event::Hear(9)),
    Step::Printed(b"I1 a1 OK [APPENDUID 1 1] APPEND completed\nI1 a2 OK NOOP completed\n"),
    Step::Refused(Event::Hear(9), HouseFault::Nothing),
    Step::Refused(Event::Put(17), HouseFault::Nobody),
    Step::Refused(Event::Hear(17), HouseFault::Nobody),
    Step::Made(Event::Say(1, APPEND)),
    Step::Made(Event::Leave(1)),
    Step::Refused(Event::Idle(1), HouseFault::Busy),
];

// Sessions have the positions 1 to 8.
const NO_PLACE: &[Step] = &[
    Step::Made(Event::Enter(8, b"alice")),
    Step::Forget,
    Step::Refused(Event::Enter(0, b"alice"), HouseFault::Nobody),
    Step::Refused(Event::Enter(9, b"alice"), HouseFault::Nobody),
    Step::Refused(Event::Say(0, b"a1 NOOP\r\n"), HouseFault::Nobody),
    Step::Refused(Event::Say(9, b"a1 NOOP\r\n"), HouseFault::Nobody),
    Step::Refused(Event::Leave(0), HouseFault::Nobody),
    Step::Refused(Event::Leave(9), HouseFault::Nobody),
    Step::Refused(Event::Idle(0), HouseFault::Nobody),
    Step::Refused(Event::Idle(9), HouseFault::Nobody),
    Step::Printed(b""),
];

const TEN_COPIES: &[u8] = b"LHLO c.example\r\nMAIL FROM:<s@a.example>\r\n\
RCPT TO:<alice@example.org>\r\nRCPT TO:<alice@example.org>\r\nRCPT TO:<alice@example.org>\r\nRCPT TO:<alice@example.org>\r\n\
RCPT TO:<alice@example.org>\r\nRCPT TO:<alice@example.org>\r\nRCPT TO:<alice@example.org>\r\nRCPT TO:<alice@example.org>\r\n\
RCPT TO:<alice@example.org>\r\nRCPT TO:<alice@example.org>\r\nDATA\r\nhi\r\n.\r\n";

const SELECT: &[u8] = b"s SELECT INBOX\r\n";

// Eighty changes of ten messages.
const CHANGES: &[u8] =
    b"b STORE 1:10 +FLAGS.SILENT (\\Seen)\r\nb STORE 1:10 -FLAGS.SILENT (\\Seen)\r\n\
b STORE 1:10 +FLAGS.SILENT (\\Seen)\r\nb STORE 1:10 -FLAGS.SILENT (\\Seen)\r\n\
b STORE 1:10 +FLAGS.SILENT (\\Seen)\r\nb STORE 1:10 -FLAGS.SILENT (\\Seen)\r\n\
b STORE 1:10 +FLAGS.SILENT (\\Seen)\r\nb STORE 1:10 -FLAGS.SILENT (\\Seen)\r\n";

// A turn shows 64 changes at most; one that shows none isn't made. A session that missed a change parts in its turn.
const TURNS: &[Step] = &[
    Step::Made(Event::Bytes(1, TEN_COPIES)),
    Step::Settled(&[]),
    Step::Made(Event::Enter(1, b"alice")),
    Step::Made(Event::Say(1, SELECT)),
    Step::Made(Event::Enter(2, b"alice")),
    Step::Made(Event::Say(2, SELECT)),
    Step::Made(Event::Say(1, b"a2 IDLE\r\n")),
    Step::Refused(Event::Idle(1), HouseFault::Nothing),
    Step::Made(Event::Say(2, CHANGES)),
    Step::Forget,
    Step::Made(Event::Idle(1)),
    Step::PrintedLines(64),
    Step::Made(Event::Idle(1)),
    Step::PrintedLines(16),
    Step::Refused(Event::Idle(1), HouseFault::Nothing),
    Step::Refused(Event::Idle(2), HouseFault::Nothing),
    Step::Refused(Event::Idle(3), HouseFault::Nobody),
    Step::Printed(b""),
    Step::Made(Event::Say(2, b"c NOOP\r\n")),
    Step::Made(Event::Say(2, CHANGES)),
    Step::Made(Event::Say(2, b"d STORE 1 FLAGS.SILENT (\\Seen)\r\n")),
    Step::Forget,
    Step::Made(Event::Idle(1)),
    Step::Printed(b"I1 * BYE Too many changes were missed\n"),
    Step::Refused(Event::Idle(1), HouseFault::Nobody),
];

const EVENTS: &[Event<'static>] = &[
    Event::Hear(1),
    Event::Bytes(1, MESSAGE),
    Event::Take(0),
    Event::Put(1),
    Event::Take(7),
    Event::Take(0),
    Event::Enter(1, b"carol"),
    Event::Deliver(0),
    Event::Answer(0),
    Event::Hear(1),
    Event::Hear(1),
];

// Events that are tried: one that is refused changes nothing, and the next is tried.
const TRIED: &[Step] = &[
    Step::Tried(EVENTS),
    Step::Tail(b"alice"),
    Step::Printed(
        b"L1 220 mx.example.org LMTP ready\n\
L1 250-mx.example.org\n\
L1 250-PIPELINING\n\
L1 250-ENHANCEDSTATUSCODES\n\
L1 250 8BITMIME\n\
L1 250 2.1.0 Sender OK\n\
L1 250 2.1.5 Recipient OK\n\
L1 354 Start mail input\n\
L1 250 2.1.5 Delivered\n\
T alice add 1\n\
T alice total 1\n",
    ),
];

// What is printed of those events.
const TRIED_LINES: &[u8] = b"L1 220 mx.example.org LMTP ready\n\
L1 250-mx.example.org\n\
L1 250-PIPELINING\n\
L1 250-ENHANCEDSTATUSCODES\n\
L1 250 8BITMIME\n\
L1 250 2.1.0 Sender OK\n\
L1 250 2.1.5 Recipient OK\n\
L1 354 Start mail input\n\
L1 250 2.1.5 Delivered\n";

// Whether what was printed is this; from here on it is asked of what comes after.
fn is_printed(out: &mut Vec<u8>, wanted: &[u8]) -> bool {
    let is_same = out.as_slice() == wanted;
    out.clear();
    is_same
}

// The same of how many lines were printed.
fn has_lines(out: &mut Vec<u8>, wanted: usize) -> bool {
    let count = out.iter().filter(|b| **b == b'\n').count();
    out.clear();
    count == wanted
}

// Whether a step comes to what is wanted.
fn goes(house: &mut House, step: Step, out: &mut Vec<u8>) -> bool {
    match step {
        Step::Made(event) => house.step(event, out) == Ok(()),
        Step::Refused(event, fault) => house.step(event, out) == Err(fault),
        Step::Tried(events) => play(house, events, out) == Ok(()),
        Step::Settled(held) => house.settle(held, out) == Ok(()),
        Step::Tail(word) => house.tail(word, out) == Ok(()),
        Step::Printed(wanted) => is_printed(out, wanted),
        Step::PrintedLines(wanted) => has_lines(out, wanted),
        Step::Forget => {
            out.clear();
            true
        }
    }
}

// The position of the first step that doesn't come to what is wanted.
fn first_unlike(house: &mut House, steps: &[Step], out: &mut Vec<u8>) -> Option<usize> {
    for (position, step) in steps.iter().enumerate() {
        if !goes(house, *step, out) {
            return Some(position);
        }
    }
    None
}

/// A house of one mailbox, which keeps 80 changes.
pub fn house(alloc: Global) -> Result<House, ConfigFault> {
    let config = Config {
        ring: 80,
        messages: 16,
        ..Config::new(alloc, &[b"alice".as_slice()])?
    };
    House::new(alloc, &config)
}

// Goes through these steps in a new house, and gives the position of the first that doesn't come to what is wanted.
fn played(alloc: Global, steps: &[Step]) -> Result<Option<usize>, ConfigFault> {
    let mut house = house(alloc)?;
    Ok(first_unlike(&mut house, steps, &mut Vec::new(alloc)))
}

// Whether this is a beginning of what is wanted, or tells a copy that memory was wanting for it.
fn is_beginning(out: &[u8], wanted: &[u8]) -> bool {
    wanted.starts_with(out) || out.ends_with(b"L1 451 4.3.0 Out of memory\n")
}

// Whether a house in which one message was brought, and nothing else, was left to that: no other connection and no session is there, and no shard is shut.
fn is_left_alone(house: &mut House, out: &mut Vec<u8>) -> bool {
    house.step(Event::Vanish(2), out) == Err(HouseFault::Nobody)
        && house.step(Event::Leave(1), out) == Err(HouseFault::Nobody)
        && house.step(Event::Close(0), out) == Ok(())
}

// Settles again behind a settling that broke off. What memory left unsaid is said at the connection's next event, an empty piece too.
fn settles_again(house: &mut House, out: &mut Vec<u8>) -> bool {
    house.settle(&[], out) == Ok(()) && house.step(Event::Bytes(1, b""), out) == Ok(())
}

// Settles where memory may be refused in the middle, looks at what was printed, and settles on to the end.
fn settles_on(house: &mut House, out: &mut Vec<u8>) -> bool {
    let is_whole = house.settle(&[], out) == Ok(());
    let is_told = is_beginning(out, b"L1 250 2.1.5 Delivered\n");
    is_told && (is_whole || settles_again(house, out)) && !out.is_empty()
}

// A message is brought to the house, which settles; where memory is refused before that there is nothing to see.
fn breaks_off(house: &mut House, out: &mut Vec<u8>) -> bool {
    if house.step(Event::Bytes(1, MESSAGE), out) != Ok(()) {
        return true;
    }
    out.clear();
    settles_on(house, out)
        && is_beginning(out, b"L1 250 2.1.5 Delivered\n")
        && is_left_alone(house, out)
}

// Events are tried, and memory may be refused at one of them: what was printed is a beginning of what they print, and nothing else was done.
fn tries(house: &mut House, out: &mut Vec<u8>) -> bool {
    let is_whole = play(house, EVENTS, out) == Ok(());
    let is_told = if is_whole {
        out.as_slice() == TRIED_LINES || out.ends_with(b"L1 451 4.3.0 Out of memory\n")
    } else {
        is_beginning(out, TRIED_LINES)
    };
    is_told && is_left_alone(house, out)
}

// Memory is enough here, and refused at each allocation in turn by `rt try --test --fail-alloc N`.
#[test]
fn a_settling_that_breaks_off_did_nothing_else(rt: HostRuntime) {
    if let Ok(mut house) = house(rt.alloc()) {
        assert!(rt; breaks_off(&mut house, &mut Vec::new(rt.alloc())));
    }
}

#[test]
fn events_that_break_off_are_the_first(rt: HostRuntime) {
    if let Ok(mut house) = house(rt.alloc()) {
        assert!(rt; tries(&mut house, &mut Vec::new(rt.alloc())));
    }
}

#[test]
fn a_seat_has_an_end_of_its_own(rt: HostRuntime) {
    assert_eq!(rt; played(rt.alloc(), ENDED), Ok(None));
    assert_eq!(rt; played(rt.alloc(), CLOSED), Ok(None));
}

#[test]
fn a_copy_goes_its_way(rt: HostRuntime) {
    assert_eq!(rt; played(rt.alloc(), IN_ORDER), Ok(None));
    assert_eq!(rt; played(rt.alloc(), APPENDED), Ok(None));
    assert_eq!(rt; played(rt.alloc(), TRIED), Ok(None));
}

#[test]
fn a_session_has_turns(rt: HostRuntime) {
    assert_eq!(rt; played(rt.alloc(), NO_PLACE), Ok(None));
    assert_eq!(rt; played(rt.alloc(), TURNS), Ok(None));
}
