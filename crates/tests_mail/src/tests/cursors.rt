//! What the clients of a few cursors are shown, as a table: each line is some changes with what a client is told of them. What may be
//! shown is looked at as the tests run, since it takes long to prove of each list.

ghost use Rattle.std.specs.Prelude.{◌≡◌, ◌==◌, ◌<◌, ◌≤◌, [], ◌∷◌, ◌++◌, length, Some, None, IfOk, IsTrue, OnOk};
ghost use Rattle.std.specs.List.{position};
ghost use Rattle.std.specs.List.Sorted.{IsStrictlyIncreasing};
ghost use Rattle.change_ring.specs.declared.change.Change.TheVariants.{Gone};
ghost use Rattle.change_ring.specs.Log.{FitsView, Names, added, shown, without, total, changes_from};
ghost use Rattle.cursor_set.specs.Cursors.{Open, held};
ghost use Rattle.cursor_set.specs.Legal.{IsLegalOn};

use super::support::{DELETED, SEEN};
use change_ring::{Change, ChangeRing, Flags, NO_FLAGS};
use cursor_set::{CursorHandle, CursorSet, FeedFault};
use std::alloc::{AllocError, Global};
use std::fmt::Write;

const ALL: Flags = Flags {
    answered: true,
    flagged: true,
    deleted: true,
    seen: true,
    draft: true,
};

// Whether UIDs rise.
fn rise(uids: &[u32]) -> bool
    ensures { IsTrue result → IsStrictlyIncreasing uids.now }
{
    for i in 1..uids.len() {
        if uids[i] <= uids[i - 1] {
            return false;
        }
    }
    true
}

// Notes the UID of a message that is added.
fn note(all: &mut Vec<u32>, change: Change) -> Result<(), AllocError>
    ensures { OnOk result (all.new.items ≡ all.old.items ++ added (change ∷ [])) }
{
    let Change::Add(uid) = change else {
        return Ok(());
    };
    let Ok(()) = all.push(uid) else {
        return Err(AllocError);
    };
    Ok(())
}

// These UIDs, and then those of the messages that are added.
fn all_uids(alloc: Global, uids: &[u32], changes: &[Change]) -> Result<Vec<u32>, AllocError>
    ensures { IfOk result (λ all. all.items ≡ uids.now ++ added changes.now) }
{
    let mut all = Vec::from_slice(alloc, uids)?;
    for change in changes {
        let Ok(()) = note(&mut all, *change) else {
            return Err(AllocError);
        };
    }
    Ok(all)
}

// Where a message stands, if it is there.
fn position_of(view: &[u32], uid: u32) -> Option<usize>
    ensures { result ≡ position (λ other. other == uid) view.now }
{
    view.iter().position(|other| *other == uid)
}

// Whether a message is there, which is then counted no more.
fn drops(view: &mut Vec<u32>, uid: u32) -> bool
    ensures { IsTrue result → Names view.old.items (Gone uid)
        × (view.new.items ≡ without uid view.old.items) }
{
    let Some(index) = position_of(view.as_slice(), uid) else {
        return false;
    };
    view.remove(index);
    true
}

// Whether a change is of a message that is there, if it isn't added. The client counts as it says.
fn shows(view: &mut Vec<u32>, change: Change) -> Result<bool, AllocError>
    ensures { IfOk result (λ may. IsTrue may
        → Names view.old.items change × (view.new.items ≡ shown view.old.items change)) }
{
    match change {
        Change::Add(uid) => {
            let Ok(()) = view.push(uid) else {
                return Err(AllocError);
            };
            Ok(true)
        }
        Change::Gone(uid) => Ok(drops(view, uid)),
        Change::Flags(uid, _flags) => Ok(view.contains(&uid)),
    }
}

// Whether each change is of a message that is there.
fn fits(alloc: Global, uids: &[u32], changes: &[Change]) -> Result<bool, AllocError>
    ensures { IfOk result (λ may. IsTrue may → FitsView uids.now changes.now) }
{
    let mut view = Vec::from_slice(alloc, uids)?;
    for change in changes {
        if !shows(&mut view, *change)? {
            return Ok(false);
        }
    }
    Ok(true)
}

// Whether these changes may be shown to a client that counts these UIDs.
fn may_be_shown(alloc: Global, uids: &[u32], changes: &[Change]) -> Result<bool, AllocError>
    ensures { IfOk result (λ may. IsTrue may → IsLegalOn uids.now changes.now) }
{
    let all = all_uids(alloc, uids, changes)?;
    if !rise(all.as_slice()) {
        return Ok(false);
    }
    fits(alloc, uids, changes)
}

// A ring of these changes alone.
fn ring_of(alloc: Global, room: usize, changes: &[Change]) -> Result<ChangeRing, AllocError>
    requires some { 0 < room }
    requires few { length changes.now ≤ room }
    ensures base { IfOk result (λ ring. ring.base ≡ 0) }
    ensures changes { IfOk result (λ ring. ring.changes ≡ changes.now) }
{
    let mut ring = ChangeRing::new(alloc, room, room)?;
    for change in changes {
        let Ok(None) = ring.push(*change, 0) else {
            return Err(AllocError);
        };
    }
    Ok(ring)
}

// Feeds of at most so many changes each, with so much room to spare, and how many each of them showed.
fn feed_each(
    alloc: Global,
    set: &mut CursorSet,
    ring: &ChangeRing,
    handle: &mut CursorHandle,
    limits: &[usize],
    spare: usize,
    text: &mut Vec<u8>,
) -> Result<Vec<usize>, AllocError>
    requires base { ring.now.base ≡ 0 }
    requires known { (o : Open) → held set.old handle.old ≡ Some o →
        (handle.old.at ≤ total ring.now) × IsLegalOn o.view (changes_from handle.old.at ring.now) }
{
    let mut counts = Vec::new(alloc);
    for limit in limits {
        let Ok(count) = set.feed(ring, handle, *limit, spare, text) else {
            return Err(AllocError);
        };
        let Ok(()) = counts.push(count) else {
            return Err(AllocError);
        };
    }
    Ok(counts)
}

// How many changes each of some feeds showed to a client, the lines, the room that is left behind
// them, and the UIDs that it counts then.
#[derive(Drop)]
struct Outcome {
    counts: Vec<usize>,
    text: Vec<u8>,
    left: usize,
    view: Vec<u32>,
}

// Feeds of at most so many changes each, to a client that counts these UIDs, into room for so many bytes.
// Each is to leave that room.
fn fed(
    alloc: Global,
    room: usize,
    uids: &[u32],
    changes: &[Change],
    limits: &[usize],
    spare: usize,
) -> Result<Outcome, AllocError>
    requires some { 0 < room }
    requires few { length changes.now ≤ room }
    requires legal { IsLegalOn uids.now changes.now }
{
    let ring = ring_of(alloc, room, changes)?;
    let mut set = CursorSet::new(alloc, 3);
    let Ok(mut handle) = set.enter(uids, 0) else {
        return Err(AllocError);
    };
    let mut text = Vec::with_capacity(alloc, spare)?;
    let counts = feed_each(
        alloc,
        &mut set,
        &ring,
        &mut handle,
        limits,
        spare,
        &mut text,
    )?;
    let left = text.capacity() - text.len();
    let Ok(view) = set.view(&handle) else {
        return Err(AllocError);
    };
    Ok(Outcome {
        counts,
        text,
        left,
        view: Vec::from_slice(alloc, view)?,
    })
}

// Changes in a ring with room for so many, the UIDs that a client counts before, and what it is told by feeds of at most so many
// changes each: how many each of them shows, the lines, and the UIDs that it counts then.
#[derive(Clone, Copy)]
struct Case<'a> {
    room: usize,
    uids: &'a [u32],
    changes: &'a [Change],
    limits: &'a [usize],
    counts: &'a [usize],
    text: &'a [u8],
    view: &'a [u32],
}

// Whether a client is told what a case says, and as much room as there was before is left behind it.
fn goes(alloc: Global, case: Case<'_>, spare: usize) -> Result<bool, AllocError> {
    if case.room == 0 || case.changes.len() > case.room {
        return Ok(false);
    }
    if !may_be_shown(alloc, case.uids, case.changes)? {
        return Ok(false);
    }
    let told = fed(
        alloc,
        case.room,
        case.uids,
        case.changes,
        case.limits,
        spare,
    )?;
    Ok(
        told.left >= spare
            && &told.counts[..] == case.counts
            && &told.text[..] == case.text
            && &told.view[..] == case.view,
    )
}

const FIVE: Case<'static> = Case {
    room: 16,
    uids: &[],
    changes: &[
        Change::Add(4),
        Change::Add(9),
        Change::Gone(4),
        Change::Flags(9, SEEN),
        Change::Gone(9),
    ],
    limits: &[3],
    counts: &[3],
    text: b"* 1 EXISTS\r\n* 2 EXISTS\r\n* 1 EXPUNGE\r\n",
    view: &[9],
};

const TWO_GONE: Case<'static> = Case {
    room: 16,
    uids: &[1, 2, 3],
    changes: &[Change::Gone(1), Change::Gone(2)],
    limits: &[10],
    counts: &[2],
    text: b"* 1 EXPUNGE\r\n* 1 EXPUNGE\r\n",
    view: &[3],
};

const CASES: &[(&str, Case<'static>)] = &[
    (
        "added messages are counted",
        Case {
            room: 16,
            uids: &[],
            changes: &[Change::Add(1), Change::Add(2)],
            limits: &[10],
            counts: &[2],
            text: b"* 1 EXISTS\r\n* 2 EXISTS\r\n",
            view: &[1, 2],
        },
    ),
    (
        "flags name the position and the UID",
        Case {
            room: 16,
            uids: &[1, 2, 3],
            changes: &[Change::Flags(1, DELETED)],
            limits: &[10],
            counts: &[1],
            text: b"* 1 FETCH (UID 1 FLAGS (\\Deleted))\r\n",
            view: &[1, 2, 3],
        },
    ),
    (
        "flags stand in one order",
        Case {
            room: 16,
            uids: &[7],
            changes: &[Change::Flags(7, ALL), Change::Flags(7, NO_FLAGS)],
            limits: &[10],
            counts: &[2],
            text: b"* 1 FETCH (UID 7 FLAGS (\\Answered \\Flagged \\Deleted \\Seen \\Draft))\r\n* 1 FETCH (UID 7 FLAGS ())\r\n",
            view: &[7],
        },
    ),
    ("each removal is counted after the one before", TWO_GONE),
    (
        "the first of two removals alone",
        Case {
            limits: &[1],
            counts: &[1],
            text: b"* 1 EXPUNGE\r\n",
            view: &[2, 3],
            ..TWO_GONE
        },
    ),
    ("a full ring is shown whole", FULL),
    ("a feed ends where it may show no more", FIVE),
    (
        "a feed goes on where the one before ended",
        Case {
            limits: &[3, 64, 64],
            counts: &[3, 2, 0],
            text: b"* 1 EXISTS\r\n* 2 EXISTS\r\n* 1 EXPUNGE\r\n* 1 FETCH (UID 9 FLAGS (\\Seen))\r\n* 1 EXPUNGE\r\n",
            view: &[],
            ..FIVE
        },
    ),
    (
        "removals in any order among others",
        Case {
            room: 16,
            uids: &[1, 2, 3, 4, 5],
            changes: &[
                Change::Gone(2),
                Change::Gone(4),
                Change::Flags(5, NO_FLAGS),
                Change::Gone(1),
                Change::Add(9),
                Change::Flags(3, NO_FLAGS),
                Change::Gone(9),
            ],
            limits: &[64],
            counts: &[7],
            text: b"* 2 EXPUNGE\r\n* 3 EXPUNGE\r\n* 3 FETCH (UID 5 FLAGS ())\r\n* 1 EXPUNGE\r\n* 3 EXISTS\r\n* 1 FETCH (UID 3 FLAGS ())\r\n* 3 EXPUNGE\r\n",
            view: &[3, 5],
        },
    ),
    (
        "scattered removals, one of what was added meanwhile",
        Case {
            room: 16,
            uids: &[1, 2, 3, 4, 5, 6, 7, 8],
            changes: &[
                Change::Gone(5),
                Change::Gone(2),
                Change::Gone(8),
                Change::Add(9),
                Change::Gone(9),
                Change::Gone(1),
            ],
            limits: &[64],
            counts: &[6],
            text: b"* 5 EXPUNGE\r\n* 2 EXPUNGE\r\n* 6 EXPUNGE\r\n* 6 EXISTS\r\n* 6 EXPUNGE\r\n* 1 EXPUNGE\r\n",
            view: &[3, 4, 6, 7],
        },
    ),
    (
        "flags among scattered removals",
        Case {
            room: 16,
            uids: &[10, 20, 30, 40, 50, 60],
            changes: &[
                Change::Gone(50),
                Change::Flags(60, NO_FLAGS),
                Change::Gone(10),
                Change::Flags(20, NO_FLAGS),
                Change::Gone(30),
                Change::Flags(60, SEEN),
                Change::Gone(60),
            ],
            limits: &[64],
            counts: &[7],
            text: b"* 5 EXPUNGE\r\n* 5 FETCH (UID 60 FLAGS ())\r\n* 1 EXPUNGE\r\n* 1 FETCH (UID 20 FLAGS ())\r\n* 2 EXPUNGE\r\n* 3 FETCH (UID 60 FLAGS (\\Seen))\r\n* 3 EXPUNGE\r\n",
            view: &[20, 40],
        },
    ),
];

const FULL: Case<'static> = Case {
    room: 16,
    uids: &[],
    changes: &[
        Change::Add(1),
        Change::Add(2),
        Change::Add(3),
        Change::Add(4),
        Change::Add(5),
        Change::Add(6),
        Change::Add(7),
        Change::Add(8),
        Change::Add(9),
        Change::Add(10),
        Change::Add(11),
        Change::Add(12),
        Change::Add(13),
        Change::Add(14),
        Change::Add(15),
        Change::Add(16),
    ],
    limits: &[64],
    counts: &[16],
    text: b"* 1 EXISTS\r\n* 2 EXISTS\r\n* 3 EXISTS\r\n* 4 EXISTS\r\n* 5 EXISTS\r\n* 6 EXISTS\r\n* 7 EXISTS\r\n* 8 EXISTS\r\n* 9 EXISTS\r\n* 10 EXISTS\r\n* 11 EXISTS\r\n* 12 EXISTS\r\n* 13 EXISTS\r\n* 14 EXISTS\r\n* 15 EXISTS\r\n* 16 EXISTS\r\n",
    view: &[1, 2, 3, 4, 5, 6, 7, 8, 9, 10, 11, 12, 13, 14, 15, 16],
};

#[test]
fn each_client_is_told_what_its_case_says(rt: HostRuntime) -> Result<(), AllocError> {
    for (name, case) in CASES {
        assert!(rt; goes(rt.alloc(), *case, 0)?, "{}", *name);
    }
    Ok(())
}

// Feeds that show as many changes as their names say.
const COUNTED: &[(&str, Case<'static>)] = &[
    (
        "none",
        Case {
            limits: &[0],
            counts: &[0],
            text: b"",
            view: &[],
            ..FIVE
        },
    ),
    (
        "one",
        Case {
            limits: &[1],
            counts: &[1],
            text: b"* 1 EXISTS\r\n",
            view: &[4],
            ..FIVE
        },
    ),
    ("several", FIVE),
    (
        "none, one and several",
        Case {
            limits: &[0, 1, 2],
            counts: &[0, 1, 2],
            ..FIVE
        },
    ),
];

// More room than the lines of all changes want: none of it may be used for them.
#[test]
fn room_to_spare_is_left_behind_what_is_shown(rt: HostRuntime) -> Result<(), AllocError> {
    for (name, case) in COUNTED {
        assert!(rt; goes(rt.alloc(), *case, 1000)?, "{}", *name);
    }
    Ok(())
}

// So many numbers, each by `step` above the one before.
fn numbers(alloc: Global, first: u32, step: u32, count: u32) -> Result<Vec<u32>, AllocError> {
    let mut numbers = Vec::new(alloc);
    for k in 0..count {
        let number = first.saturating_add(step.saturating_mul(k));
        let Ok(()) = numbers.push(number) else {
            return Err(AllocError);
        };
    }
    Ok(numbers)
}

// The removals of these.
fn removals(alloc: Global, uids: &[u32]) -> Result<Vec<Change>, AllocError> {
    let mut changes = Vec::new(alloc);
    for uid in uids {
        let Ok(()) = changes.push(Change::Gone(*uid)) else {
            return Err(AllocError);
        };
    }
    Ok(changes)
}

// A line for the removal at each of these positions.
fn expunges(alloc: Global, positions: &[u32]) -> Result<String, AllocError> {
    let mut lines = String::new(alloc);
    for position in positions {
        let Ok(()) = write!(lines, "* {} EXPUNGE\r\n", *position) else {
            return Err(AllocError);
        };
    }
    Ok(lines)
}

// Whether a client that counts a thousand UIDs, from 1 on, is told that these go, at these positions, and counts those that are kept.
fn goes_from_a_thousand(
    alloc: Global,
    gone: &[u32],
    positions: &[u32],
    count: usize,
    kept: &[u32],
) -> Result<bool, AllocError> {
    let uids = numbers(alloc, 1, 1, 1000)?;
    let changes = removals(alloc, gone)?;
    let lines = expunges(alloc, positions)?;
    let case = Case {
        room: 1000,
        uids: &uids,
        changes: &changes,
        limits: &[1000],
        counts: &[count],
        text: lines.as_bytes(),
        view: kept,
    };
    goes(alloc, case, 0)
}

// Whether a client that counts a thousand UIDs is told that every second of them is removed. The UID 2(k + 1) has the position 2(k + 1),
// less the k that were removed before it.
fn half_goes(alloc: Global) -> Result<bool, AllocError> {
    let gone = numbers(alloc, 2, 2, 500)?;
    let positions = numbers(alloc, 2, 1, 500)?;
    let kept = numbers(alloc, 1, 2, 500)?;
    goes_from_a_thousand(alloc, &gone, &positions, 500, &kept)
}

#[test]
fn every_second_of_a_thousand_is_removed(rt: HostRuntime) -> Result<(), AllocError> {
    assert!(rt; half_goes(rt.alloc())?);
    Ok(())
}

// Whether a client that counts a thousand UIDs is told that all behind the first three hundred are removed, the last one first. So each
// has its UID for its position.
fn last_ones_go(alloc: Global) -> Result<bool, AllocError> {
    let mut gone = numbers(alloc, 301, 1, 700)?;
    gone.reverse();
    let kept = numbers(alloc, 1, 1, 300)?;
    goes_from_a_thousand(alloc, &gone, &gone, 700, &kept)
}

#[test]
fn seven_hundred_are_removed_from_the_last_on(rt: HostRuntime) -> Result<(), AllocError> {
    assert!(rt; last_ones_go(rt.alloc())?);
    Ok(())
}

// A feed where the next change may have been overwritten, if it was.
fn feed_lapped(
    set: &mut CursorSet,
    ring: &ChangeRing,
    handle: &mut CursorHandle,
    out: &mut Vec<u8>,
) -> Option<Result<usize, FeedFault>> {
    if ring.base() <= handle.at() {
        return None;
    }
    Some(set.feed(ring, handle, 64, 0, out))
}

// A ring of which more were added than it has room for.
fn overwritten(alloc: Global) -> Result<ChangeRing, AllocError> {
    let mut ring = ChangeRing::new(alloc, 16, 16)?;
    for uid in 1..18 {
        let _ = ring.push(Change::Add(uid), 0);
    }
    Ok(ring)
}

fn counts(set: &CursorSet, handle: &CursorHandle, uids: &[u32]) -> bool {
    match set.view(handle) {
        Ok(view) => view == uids,
        Err(_stranger) => false,
    }
}

#[test]
fn an_overwritten_change_laps(rt: HostRuntime) -> Result<(), AllocError> {
    let ring = overwritten(rt.alloc())?;
    let mut set = CursorSet::new(rt.alloc(), 3);
    let mut out = Vec::from_slice(rt.alloc(), b"before")?;
    let Ok(mut handle) = set.enter(&[], 0) else {
        return Err(AllocError);
    };
    let fed = feed_lapped(&mut set, &ring, &mut handle, &mut out);
    let counted = counts(&set, &handle, &[]);
    assert!(rt; fed == Some(Err(FeedFault::Lapped)));
    assert!(rt; &out[..] == b"before".as_slice());
    assert!(rt; handle.at() == 0 && counted);
    Ok(())
}

// A set of this number with a cursor that stands at 0, and its handle.
fn entered(
    alloc: Global,
    number: u8,
    uids: &[u32],
) -> Result<(CursorSet, CursorHandle), AllocError> {
    let mut set = CursorSet::new(alloc, number);
    let Ok(handle) = set.enter(uids, 0) else {
        return Err(AllocError);
    };
    Ok((set, handle))
}

fn is_stranger(set: &CursorSet, handle: &CursorHandle) -> bool
    ensures { IsTrue result → held set.now handle.now ≡ None }
{
    set.view(handle).is_err()
}

// Whether a feed says that the handle is a stranger, and shows it nothing.
fn feeds_none(
    set: &mut CursorSet,
    ring: &ChangeRing,
    handle: &mut CursorHandle,
    out: &mut Vec<u8>,
) -> bool {
    if !is_stranger(set, handle) {
        return false;
    }
    let fed = set.feed(ring, handle, 10, 0, out);
    fed == Err(FeedFault::Stranger) && out.is_empty() && is_stranger(set, handle)
}

// A handle that a set refuses as a stranger's, as it was given back.
fn refused_by(
    alloc: Global,
    set: &mut CursorSet,
    stranger: CursorHandle,
) -> Result<CursorHandle, AllocError> {
    let ring = ring_of(alloc, 16, &[Change::Add(5)])?;
    let mut handle = stranger;
    let mut out = Vec::new(alloc);
    if !feeds_none(set, &ring, &mut handle, &mut out) {
        return Err(AllocError);
    }
    let Err(back) = set.close(handle) else {
        return Err(AllocError);
    };
    Ok(back)
}

#[test]
fn a_handle_of_another_set_is_a_stranger(rt: HostRuntime) -> Result<(), AllocError> {
    let (mut set, handle) = entered(rt.alloc(), 3, &[2, 4])?;
    let (_other, stranger) = entered(rt.alloc(), 4, &[])?;
    let _back = refused_by(rt.alloc(), &mut set, stranger)?;
    let counted = counts(&set, &handle, &[2, 4]);
    assert!(rt; counted && set.close(handle).is_ok());
    Ok(())
}

// A handle of a set's second cursor, which counts one UID; its first is closed.
fn entered_later(alloc: Global) -> Result<(CursorSet, CursorHandle), AllocError> {
    let (mut set, closed) = entered(alloc, 0, &[])?;
    if set.close(closed).is_err() || !set.can_open() {
        return Err(AllocError);
    }
    let Ok(handle) = set.enter(&[3], 0) else {
        return Err(AllocError);
    };
    Ok((set, handle))
}

#[test]
fn a_later_handle_of_a_set_with_the_same_number_is_a_stranger(
    rt: HostRuntime,
) -> Result<(), AllocError> {
    let (mut older, second) = entered_later(rt.alloc())?;
    let (mut other, handle) = entered(rt.alloc(), 0, &[2, 4])?;
    let second = refused_by(rt.alloc(), &mut other, second)?;
    let counted = counts(&other, &handle, &[2, 4]) && counts(&older, &second, &[3]);
    let closed = older.close(second).is_ok() && other.close(handle).is_ok();
    assert!(rt; counted && closed);
    Ok(())
}

// Cursors that stand at these.
fn standing(alloc: Global, positions: &[u64]) -> CursorSet {
    let mut set = CursorSet::new(alloc, 3);
    for at in positions {
        if set.can_open() {
            let _ = set.enter(&[], *at);
        }
    }
    set
}

#[test]
fn the_least_cursor_is_found(rt: HostRuntime) {
    let fresh = standing(rt.alloc(), &[]);
    assert!(rt; fresh.can_open() && fresh.least(0).is_none());
    let set = standing(rt.alloc(), &[7, 3, 5]);
    let least = [set.least(0), set.least(4), set.least(8)];
    assert!(rt; least == [Some(3), Some(5), None]);
}
