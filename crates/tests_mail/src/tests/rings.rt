//! Rings that fill, drop, grow and can't: what a push hands back, how many changes fit after it, and in
//! how many slices they are lent. No clause speaks of the slices' number.

ghost use Rattle.std.specs.Prelude.{◌≤◌};

use change_ring::{Change, ChangeRing, Lapped, Spent};
use std::alloc::{AllocError, Global};

// What is seen of a ring after a push.
#[derive(Clone, Copy, Debug, PartialEq, Eq)]
struct Seen {
    lost: Result<Option<Change>, Spent>,
    capacity: usize,
    base: u64,
    lent: Result<(usize, usize), Lapped>,
}

// One push into a ring of four cells that may grow by so many, after others of which none was
// wanted. Each adds the message whose UID is the change's number.
struct Case {
    name: &'static str,
    more: u8,
    before: u32,
    keep_from: u64,
    seen: Seen,
}

// A ring of four cells that has dropped the first change.
const FIRST_DROPPED: Seen = Seen {
    lost: Ok(Some(Change::Add(0))),
    capacity: 4,
    base: 1,
    lent: Ok((3, 1)),
};

const CASES: &[Case] = &[
    Case {
        name: "a ring with room keeps its size",
        more: 4,
        before: 2,
        keep_from: 0,
        seen: Seen {
            lost: Ok(None),
            capacity: 4,
            base: 0,
            lent: Ok((3, 0)),
        },
    },
    Case {
        name: "a full ring grows where all is wanted",
        more: 4,
        before: 4,
        keep_from: 0,
        seen: Seen {
            lost: Ok(None),
            capacity: 8,
            base: 0,
            lent: Ok((5, 0)),
        },
    },
    Case {
        name: "a full ring drops what is not wanted",
        more: 4,
        before: 4,
        keep_from: 1,
        seen: FIRST_DROPPED,
    },
    Case {
        name: "a full ring that may not grow drops what is wanted",
        more: 0,
        before: 4,
        keep_from: 0,
        seen: FIRST_DROPPED,
    },
    Case {
        name: "the second round begins in the first cell",
        more: 4,
        before: 7,
        keep_from: 9,
        seen: Seen {
            lost: Ok(Some(Change::Add(3))),
            capacity: 4,
            base: 4,
            lent: Ok((4, 0)),
        },
    },
    Case {
        name: "a ring that has gone round grows",
        more: 4,
        before: 6,
        keep_from: 2,
        seen: Seen {
            lost: Ok(None),
            capacity: 8,
            base: 2,
            lent: Ok((5, 0)),
        },
    },
    Case {
        name: "a ring that has gone round grows by less than its size",
        more: 1,
        before: 7,
        keep_from: 0,
        seen: Seen {
            lost: Ok(None),
            capacity: 5,
            base: 3,
            lent: Ok((5, 0)),
        },
    },
];

// A ring to which so many changes were logged, of which none was wanted.
fn filled(alloc: Global, max: usize, count: u32) -> Result<ChangeRing, AllocError>
    requires { 4 ≤ max }
{
    let mut ring = ChangeRing::new(alloc, 4, max)?;
    for uid in 0..count {
        let _ = ring.push(Change::Add(uid), u64::MAX);
    }
    Ok(ring)
}

// What is seen of it after one push more.
fn after_push(ring: &mut ChangeRing, uid: u32, keep_from: u64) -> Seen {
    let lost = ring.push(Change::Add(uid), keep_from);
    Seen {
        lost,
        capacity: ring.capacity(),
        base: ring.base(),
        lent: lent_slices(ring),
    }
}

// How long the two slices are of all that is kept.
fn lent_slices(ring: &ChangeRing) -> Result<(usize, usize), Lapped> {
    ring.lend(ring.base())
        .map(|lent| (lent.0.len(), lent.1.len()))
}

// Whether each change that is kept adds the message of its number.
fn is_in_order(ring: &ChangeRing) -> bool {
    let Ok((older, newer)) = ring.lend(ring.base()) else {
        return false;
    };
    let middle = ring.base().wrapping_add(older.len() as u64);
    counts_from(older, ring.base()) && counts_from(newer, middle)
}

fn counts_from(changes: &[Change], first: u64) -> bool {
    for (at, change) in changes.iter().enumerate() {
        let Change::Add(uid) = *change else {
            return false;
        };
        if uid as u64 != first.wrapping_add(at as u64) {
            return false;
        }
    }
    true
}

// A ring may go to another thread, and be seen from there.
fn crosses<T: Send + Sync>(_ring: &T) {}

#[test]
fn each_push_does_as_its_table_tells(rt: HostRuntime) -> Result<(), AllocError> {
    for case in CASES {
        let mut ring = filled(rt.alloc(), 4 + case.more as usize, case.before)?;
        let seen = after_push(&mut ring, case.before, case.keep_from);
        assert_eq!(rt; seen, case.seen, "{}", case.name);
        assert!(rt; is_in_order(&ring), "{}", case.name);
        crosses(&ring);
    }
    Ok(())
}

// With the second allocation refused (`rt try --test --fail-alloc 2`) it is the second of these.
#[test]
fn a_refused_growth_drops_the_oldest(rt: HostRuntime) -> Result<(), AllocError> {
    let mut ring = filled(rt.alloc(), 8, 4)?;
    let seen = after_push(&mut ring, 4, 0);
    let grown = seen.lost == Ok(None) && seen.capacity == 8;
    let refused = seen.lost == Ok(Some(Change::Add(0))) && seen.capacity == 4;
    assert!(rt; grown || refused);
    assert!(rt; is_in_order(&ring));
    Ok(())
}

#[test]
fn no_change_follows_the_last_number(rt: HostRuntime) -> Result<(), AllocError> {
    let mut ring = ChangeRing::starting_at(rt.alloc(), 4_611_686_018_427_387_903, 16, 16)?;
    assert_eq!(rt; ring.push(Change::Add(1), 0), Ok(None));
    assert_eq!(rt; ring.push(Change::Add(2), 0), Err(Spent));
    Ok(())
}

#[test]
fn what_was_overwritten_is_not_lent(rt: HostRuntime) -> Result<(), AllocError> {
    let mut ring = filled(rt.alloc(), 4, 5)?;
    let lent = ring.lend(0).map(|lent| (lent.0.len(), lent.1.len()));
    assert_eq!(rt; lent, Err(Lapped));
    assert_eq!(rt; ring.total(), 5);
    assert_eq!(rt; ring.push(Change::Add(5), 0), Ok(Some(Change::Add(1))));
    Ok(())
}
