//! The messages of a view, which is the UIDs that a session was shown, in their order: each with its position there.
//! Which of them a set names is told in `set`.

ghost use Rattle.std.specs.Prelude.{◌≡◌, ◌+◌, ◌<◌, IfOk, length, map, true};
ghost use Rattle.std.specs.List.Sorted.{IsNonDecreasing};
ghost use Rattle.change_ring.specs.View.{position};
ghost use Rattle.imap_grammar.specs.Sets.{named_at};

use std::alloc::{AllocError, Global};

/// A message of a view.
#[derive(Clone, Copy, Debug, PartialEq, Eq)]
pub struct Named {
    /// Its position in the view, counted from 1: the number by which the session knows it (RFC 9051, 2.3.1.2).
    pub position: usize,
    /// Its UID.
    pub uid: u32,
}

// The position of a message in a view, found by halving; one past the last where it isn't there.
fn position_by_halving(view: &[u32], uid: u32) -> usize
    requires { IsNonDecreasing view.now }
    ensures { result ≡ position uid view.now }
{
    let index = view.partition_point(|u| *u < uid);
    match view.get(index) {
        Some(found) if *found == uid => index + 1,
        _ => view.len() + 1,
    }
}

// Whether the message stands at this index of a view, and no earlier.
fn is_first_at(view: &[u32], index: usize, uid: u32) -> bool
    requires { IsNonDecreasing view.now }
    ensures there { result ≡ true → index < length view.now }
    ensures first { result ≡ true → position uid view.now ≡ index + 1 }
{
    if view.get(index) != Some(&uid) {
        return false;
    }
    if index == 0 {
        return true;
    }
    view[index - 1] < uid
}

// The position of a message in a view. Where it stands at this index it need not be looked for.
fn position_near(view: &[u32], index: usize, uid: u32) -> usize
    requires { IsNonDecreasing view.now }
    ensures { result ≡ position uid view.now }
{
    if is_first_at(view, index, uid) {
        return index + 1;
    }
    position_by_halving(view, uid)
}

/// The messages of these UIDs in a view, each with its position. One that stands behind the one before it costs no search.
pub(crate) fn with_positions(
    alloc: Global,
    uids: &[u32],
    view: &[u32],
) -> Result<Vec<Named>, AllocError>
    requires { IsNonDecreasing view.now }
    ensures { IfOk result (λ named. named.items ≡ map (named_at view.now) uids.now) }
{
    let mut named = Vec::with_capacity(alloc, uids.len())?;
    let mut next = 0;
    for uid in uids {
        let position = position_near(view, next, *uid);
        named.push_reserved(Named {
            position,
            uid: *uid,
        });
        next = position;
    }
    Ok(named)
}
