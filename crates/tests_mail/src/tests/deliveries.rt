//! A copy's way from its seat to a mailbox and back, and what the sessions of that mailbox are told, as tables: each line is a call
//! with what it is to answer.

ghost use Rattle.std.specs.Prelude.{◌<◌};

use super::support::{DELETED, ONE_SEEN, SEEN, SMALL, flags_read, lines_are};
use change_ring::{FlagOp, Flags, NO_FLAGS};
use delivery_core::{DeliveryCore, Fault, HearFault, Settings};
use delivery_token::{CopyKey, Noted, Refusal, Text, Verdict};
use mailbox::{Limits, MailFault, Opening, Status};
use std::alloc::{AllocError, Global};

const NO_GROWTH: Settings = Settings {
    seats: 1,
    shards: 1,
    mailboxes: 2,
    depth: 2,
    uidvalidity: 7,
    first_uid: 1,
    limits: Limits { ring: 1, ..SMALL },
    sessions: 2,
};

const GROWTH: Settings = Settings {
    limits: Limits {
        ring: 1,
        ring_max: 4,
        ..SMALL
    },
    ..NO_GROWTH
};

const TWO_SEATS: Settings = Settings {
    seats: 2,
    limits: SMALL,
    ..NO_GROWTH
};

const KEY: CopyKey = CopyKey {
    seat: 0,
    serial: 0,
    message: 0,
    recipient: 0,
};

// The other seat's key.
const OTHER: CopyKey = CopyKey { seat: 1, ..KEY };

// A call, and what it is to answer.
enum Act {
    // This seat's copy of "hi" for this recipient goes to this mailbox's lane.
    Put(u8, u8, u8, Result<Option<Refusal>, AllocError>),
    // Whether it may.
    MayPut(u8, u8, u8, bool),
    // The shard of this number does so.
    Take(u8, Result<(), Fault>),
    Deliver(u8, Result<(), Fault>),
    Answer(u8, Result<(), Fault>),
    // The seat of this number does so; it ends in this lane.
    Hear(u8, Result<Noted, HearFault>),
    End(u8, u8, Result<(), Fault>),
    // Such a copy goes the whole way.
    Arrives(u8, u8),
    Accepted(u8, Option<&'static [(CopyKey, u32)]>),
    // Where the window begins, and the lengths of its two parts.
    Tail(u8, Option<(u64, usize, usize)>),
    Count(u8, Option<Status>),
    // The session of this number does so, in the mailbox of the second.
    Enter(u8, u8, Result<Opening, MailFault>),
    // Whatever it is told there.
    Enters(u8, u8),
    View(u8, &'static [u32]),
    IsUpToDate(u8, bool),
    Feed(u8, Result<usize, MailFault>),
    // Whether \Seen is set: the flags, and whether they became others.
    Read(u8, u32, bool, Result<Option<(Flags, bool)>, MailFault>),
    Store(u8, u32, FlagOp, Result<Option<Flags>, MailFault>),
    Expunge(u8, &'static [u32], Result<usize, MailFault>),
    // Messages with \Deleted go where this is so.
    Leave(u8, bool, Result<usize, MailFault>),
    // The messages of these UIDs go from the mailbox of this number.
    Discard(u8, &'static [u32], Result<(), MailFault>),
    // The lines since the last such act.
    Lines(&'static [u8]),
}

fn key_of(seat: u8, recipient: u8) -> CopyKey {
    CopyKey {
        seat,
        recipient,
        ..KEY
    }
}

fn puts(
    alloc: Global,
    core: &mut DeliveryCore,
    key: CopyKey,
    mailbox: u8,
    wanted: Result<Option<Refusal>, AllocError>,
) -> Result<bool, AllocError> {
    let text = Text::new(Vec::from_slice(alloc, b"hi\r\n")?)?;
    Ok(core.may_put(key, mailbox) && core.put(key, mailbox, &text, NO_FLAGS) == wanted)
}

// Whether a copy goes the whole way to a mailbox.
fn arrives(
    alloc: Global,
    core: &mut DeliveryCore,
    recipient: u8,
    mailbox: u8,
) -> Result<bool, AllocError> {
    let put = puts(alloc, core, key_of(0, recipient), mailbox, Ok(None))?;
    let taken = core.take(0).is_ok();
    let delivered = core.deliver(0).is_ok();
    let answered = core.answer(0).is_ok();
    Ok(put && taken && delivered && answered && core.hear(0).is_ok())
}

// Where the window begins, and the lengths of its two parts.
fn tail(core: &DeliveryCore, mailbox: u8) -> Option<(u64, usize, usize)> {
    let (base, older, newer) = core.tail(mailbox)?;
    Some((base, older.len(), newer.len()))
}

// Whether a mailbox accepted these, or isn't there where none are named.
fn has_accepted(core: &DeliveryCore, mailbox: u8, wanted: Option<&[(CopyKey, u32)]>) -> bool {
    match (core.accepted(mailbox), wanted) {
        (Some(accepted), Some(copies)) => accepted == copies,
        (None, None) => true,
        _ => false,
    }
}

// Whether a call of a lane or of a mailbox answers as it should.
fn moves(alloc: Global, core: &mut DeliveryCore, act: &Act) -> Result<bool, AllocError> {
    match act {
        Act::Put(seat, recipient, mailbox, wanted) => {
            puts(alloc, core, key_of(*seat, *recipient), *mailbox, *wanted)
        }
        Act::MayPut(seat, recipient, mailbox, wanted) => {
            Ok(core.may_put(key_of(*seat, *recipient), *mailbox) == *wanted)
        }
        Act::Take(shard, wanted) => Ok(core.take(*shard) == *wanted),
        Act::Deliver(shard, wanted) => Ok(core.deliver(*shard) == *wanted),
        Act::Answer(shard, wanted) => Ok(core.answer(*shard) == *wanted),
        Act::Hear(seat, wanted) => Ok(core.hear(*seat) == *wanted),
        Act::End(seat, shard, wanted) => Ok(core.end(*seat, *shard) == *wanted),
        Act::Arrives(recipient, mailbox) => arrives(alloc, core, *recipient, *mailbox),
        Act::Accepted(mailbox, wanted) => Ok(has_accepted(core, *mailbox, *wanted)),
        Act::Tail(mailbox, wanted) => Ok(tail(core, *mailbox) == *wanted),
        Act::Count(mailbox, wanted) => Ok(core.status(*mailbox) == *wanted),
        _ => Ok(false),
    }
}

fn counts(core: &DeliveryCore, session: u8, uids: &[u32]) -> bool {
    match core.view(session) {
        Ok(view) => view.uids() == uids,
        Err(_fault) => false,
    }
}

// Whether an act answers as it should.
fn step(
    alloc: Global,
    core: &mut DeliveryCore,
    out: &mut Vec<u8>,
    act: &Act,
) -> Result<bool, AllocError> {
    match act {
        Act::Enter(session, mailbox, wanted) => Ok(core.enter(*session, *mailbox) == *wanted),
        Act::Enters(session, mailbox) => Ok(core.enter(*session, *mailbox).is_ok()),
        Act::View(session, uids) => Ok(counts(core, *session, uids)),
        Act::IsUpToDate(session, wanted) => Ok(core.is_up_to_date(*session) == *wanted),
        Act::Feed(session, wanted) => Ok(core.feed(*session, 64, 0, out) == *wanted),
        Act::Read(session, uid, mark, wanted) => Ok(
            flags_read(core.read(*session, *uid, *mark), *uid) == *wanted,
        ),
        Act::Store(session, uid, op, wanted) => Ok(core.store(*session, *uid, *op) == *wanted),
        Act::Expunge(session, set, wanted) => {
            Ok(core.expunge(*session, Some(*set), 0, out) == *wanted)
        }
        Act::Leave(session, remove, wanted) => Ok(core.leave(*session, *remove) == *wanted),
        Act::Discard(mailbox, uids, wanted) => Ok(core.discard(*mailbox, *uids) == *wanted),
        Act::Lines(wanted) => Ok(lines_are(out, wanted)),
        _ => moves(alloc, core, act),
    }
}

// The position of the first act that answers otherwise, where there is one.
fn play(alloc: Global, settings: Settings, acts: &[Act]) -> Result<Option<usize>, AllocError>
    requires { 0 < settings.limits.ring }
{
    let mut core = DeliveryCore::new(alloc, settings)?;
    let mut out = Vec::new(alloc);
    for k in 0..acts.len() {
        if !step(alloc, &mut core, &mut out, &acts[k])? {
            return Ok(Some(k));
        }
    }
    Ok(None)
}

// What is heard of the first copy.
const FIRST_STORED: Noted = Noted {
    key: KEY,
    mailbox: 1,
    verdict: Verdict::Stored { uid: 1 },
};

const ONE_COPY: &[Act] = &[
    Act::Put(0, 0, 1, Ok(None)),
    Act::Hear(0, Err(HearFault::Nothing)),
    Act::Deliver(0, Err(Fault::Nothing)),
    Act::Take(0, Ok(())),
    Act::Deliver(0, Ok(())),
    Act::Answer(0, Ok(())),
    Act::Hear(0, Ok(FIRST_STORED)),
    Act::Accepted(1, Some(&[(KEY, 1)])),
    Act::Accepted(2, None),
    Act::Tail(1, Some((0, 1, 0))),
];

#[test]
fn one_copy_is_delivered(rt: HostRuntime) -> Result<(), AllocError> {
    assert_eq!(rt; play(rt.alloc(), TWO_SEATS, ONE_COPY)?, None);
    Ok(())
}

const ENDED: &[Act] = &[
    Act::Take(0, Err(Fault::Nothing)),
    Act::Take(1, Err(Fault::Nobody)),
    Act::End(0, 0, Ok(())),
    Act::End(0, 0, Err(Fault::Nothing)),
    Act::Put(0, 0, 1, Ok(Some(Refusal::Shut))),
    Act::MayPut(0, 0, 1, false),
    Act::MayPut(0, 1, 1, true),
    Act::Take(0, Ok(())),
    // Its end was taken: it has ended all the same.
    Act::Put(0, 1, 1, Ok(Some(Refusal::Shut))),
    Act::Take(0, Err(Fault::Nothing)),
];

#[test]
fn a_seat_that_ended_puts_nothing_more(rt: HostRuntime) -> Result<(), AllocError> {
    assert_eq!(rt; play(rt.alloc(), TWO_SEATS, ENDED)?, None);
    Ok(())
}

const CLOSING: &[Act] = &[
    Act::Put(0, 0, 1, Ok(None)),
    Act::End(0, 0, Ok(())),
    // The lane is full as well: whose end is there hears of that first, and the other hears that it is full.
    Act::Put(0, 1, 1, Ok(Some(Refusal::Shut))),
    Act::Put(1, 0, 1, Ok(Some(Refusal::Full))),
    Act::Take(0, Ok(())),
    Act::Put(0, 2, 1, Ok(Some(Refusal::Shut))),
    Act::Put(1, 1, 1, Ok(None)),
    Act::Deliver(0, Ok(())),
    Act::Answer(0, Ok(())),
    Act::Hear(0, Ok(FIRST_STORED)),
    // Its end.
    Act::Take(0, Ok(())),
    Act::Deliver(0, Err(Fault::Nothing)),
    Act::Take(0, Ok(())),
    Act::Deliver(0, Ok(())),
    Act::Answer(0, Ok(())),
    Act::Hear(
        1,
        Ok(Noted {
            key: CopyKey {
                recipient: 1,
                ..OTHER
            },
            mailbox: 1,
            verdict: Verdict::Stored { uid: 2 },
        }),
    ),
    Act::Accepted(
        1,
        Some(&[
            (KEY, 1),
            (
                CopyKey {
                    recipient: 1,
                    ..OTHER
                },
                2,
            ),
        ]),
    ),
];

#[test]
fn a_lane_that_one_seat_shut_delivers_what_waits(rt: HostRuntime) -> Result<(), AllocError> {
    assert_eq!(rt; play(rt.alloc(), TWO_SEATS, CLOSING)?, None);
    Ok(())
}

const ONE_SESSION: &[Act] = &[
    Act::Enter(
        0,
        1,
        Ok(Opening {
            count: 0,
            uidnext: 1,
            uidvalidity: 7,
        }),
    ),
    Act::Arrives(0, 1),
    Act::View(0, &[]),
    Act::IsUpToDate(0, false),
    Act::Feed(0, Ok(1)),
    Act::IsUpToDate(0, true),
    Act::View(0, &[1]),
    Act::Read(0, 1, true, Ok(Some((SEEN, true)))),
    Act::Count(1, Some(ONE_SEEN)),
    Act::Count(2, None),
    Act::Store(0, 1, FlagOp::Set(DELETED), Ok(Some(DELETED))),
    Act::Expunge(0, &[1], Ok(1)),
    Act::Feed(0, Ok(1)),
    Act::Lines(
        b"* 1 EXISTS\r\n* 1 FETCH (UID 1 FLAGS (\\Seen))\r\n* 1 FETCH (UID 1 FLAGS (\\Deleted))\r\n* 1 EXPUNGE\r\n",
    ),
    Act::Leave(0, true, Ok(0)),
    Act::Leave(0, true, Err(MailFault::Stranger)),
];

#[test]
fn a_session_is_in_its_mailbox(rt: HostRuntime) -> Result<(), AllocError> {
    assert_eq!(rt; play(rt.alloc(), GROWTH, ONE_SESSION)?, None);
    Ok(())
}

const TWO_SESSIONS: &[Act] = &[
    Act::Enters(0, 0),
    Act::Enters(1, 0),
    Act::Enter(1, 1, Err(MailFault::Stranger)),
    Act::Enter(2, 0, Err(MailFault::Stranger)),
    Act::Arrives(0, 0),
    Act::Feed(0, Ok(1)),
    Act::Arrives(1, 0),
    Act::Feed(0, Ok(1)),
    Act::Feed(1, Err(MailFault::Lapped)),
    Act::Read(1, 1, false, Err(MailFault::Lapped)),
    Act::Lines(b"* 1 EXISTS\r\n* 2 EXISTS\r\n"),
    Act::View(0, &[1, 2]),
    Act::Leave(1, false, Ok(0)),
    Act::Enters(1, 1),
];

#[test]
fn one_of_two_sessions_falls_behind(rt: HostRuntime) -> Result<(), AllocError> {
    assert_eq!(rt; play(rt.alloc(), NO_GROWTH, TWO_SESSIONS)?, None);
    Ok(())
}

const DISCARDED: &[Act] = &[
    Act::Enters(0, 1),
    Act::Enters(1, 0),
    Act::Arrives(0, 0),
    Act::Feed(1, Ok(1)),
    Act::Lines(b"* 1 EXISTS\r\n"),
    Act::Arrives(1, 1),
    Act::Arrives(2, 1),
    Act::Arrives(3, 1),
    Act::Feed(0, Ok(3)),
    Act::Lines(b"* 1 EXISTS\r\n* 2 EXISTS\r\n* 3 EXISTS\r\n"),
    // Whatever their flags and their order; no message has the second.
    Act::Discard(1, &[3, 9, 1], Ok(())),
    Act::View(0, &[1, 2, 3]),
    Act::IsUpToDate(0, false),
    Act::IsUpToDate(1, true),
    Act::Feed(0, Ok(2)),
    Act::Lines(b"* 1 EXPUNGE\r\n* 2 EXPUNGE\r\n"),
    Act::View(0, &[2]),
    Act::Read(0, 2, false, Ok(Some((NO_FLAGS, false)))),
    // They are gone, so nothing is logged.
    Act::Discard(1, &[1, 3], Ok(())),
    Act::IsUpToDate(0, true),
    Act::Discard(2, &[1], Err(MailFault::Stranger)),
    Act::View(1, &[1]),
];

#[test]
fn messages_go_by_their_uids(rt: HostRuntime) -> Result<(), AllocError> {
    assert_eq!(rt; play(rt.alloc(), GROWTH, DISCARDED)?, None);
    Ok(())
}
