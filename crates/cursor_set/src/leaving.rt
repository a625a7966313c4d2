//! A client's view while messages are taken out of it: the view stays as it is, and beside it the
//! indices of what is gone are noted, so that removals in any order don't move the view for each.
//! It is closed over them once they are many, and at the end. Which lines tell of it is told in
//! `lines`.

ghost use Rattle.std.specs.Prelude.{◌≡◌, ◌≢◌, true, ℕ, ◌+◌, ◌-◌, ◌<◌, ◌≤◌, ◌↔◌, [], ◌++◌, List, length, slice_index, remove, All, vec_len, vec_capacity, Contains};
ghost use Rattle.std.specs.List.Sorted.{IsStrictlyIncreasing};
ghost use Rattle.change_ring.specs.Log.{without};
ghost use Rattle.cursor_set.specs.Leaving.{counted, AreIn};
ghost use Rattle.cursor_set.specs.inner.Leaving.{below};
ghost use Rattle.change_ring.specs.View.{position};

use crate::gap::Gap;
use change_ring::Change;
use std::alloc::Global;

/// At most so many indices are noted. To note one moves those above it, and to close the view over
/// them moves the view: of a view of some ten thousands, neither is much for each.
const MOST: usize = 512;

/// The UIDs of a view that don't count any more: their indices in it, which rise. Beside them stands
/// the index that was looked up last, a hint for the next: it may be any number.
#[derive(Drop)]
pub struct Leaving {
    gone: Vec<usize>,
    last: usize,
}

impl Leaving {
    /// None is gone. There is room to note all removals among these changes but one, as far as memory
    /// is given: what isn't noted is taken out of the view at once.
    pub fn new(alloc: Global, changes: &[Change]) -> Leaving
        ensures { result.gone.items ≡ [] }
    {
        let removals = changes
            .iter()
            .filter(|change| matches!(change, Change::Gone(_)))
            .count();
        let room = removals.saturating_sub(1).min(MOST);
        match Vec::with_capacity(alloc, room) {
            Ok(gone) => Leaving { gone, last: 0 },
            Err(_) => Leaving {
                gone: Vec::new(alloc),
                last: 0,
            },
        }
    }

    /// How many UIDs count.
    pub fn count(&self, view: &[u32]) -> usize
        requires { AreIn self.now.gone.items view.now }
        ensures { result ≡ length (counted self.now.gone.items view.now) }
    {
        view.len() - self.gone.len()
    }

    // How many of those that are gone stand before this index: all, where a run of removals rises.
    fn below(&self, index: usize) -> usize
        requires { IsStrictlyIncreasing self.now.gone.items }
        ensures { result ≡ below index self.now.gone.items }
    {
        let Some(last) = self.gone.last() else {
            return 0;
        };
        if *last < index {
            return self.gone.len();
        }
        self.gone.partition_point(|other| *other < index)
    }

    /// The position of a message among those that count, from 1.
    pub fn position(&mut self, view: &[u32], uid: u32) -> usize
        // The indices that are gone lie in the view and rise; the message counts; the UIDs of the view rise.
        requires gone { AreIn self.old.gone.items view.now }
        requires there { Contains (counted self.old.gone.items view.now) uid }
        requires rising { IsStrictlyIncreasing view.now }

        // Nothing more is gone, and the answer is the message's position among the UIDs that count.
        ensures gone { self.new.gone.items ≡ self.old.gone.items }
        ensures position { result ≡ position uid (counted self.old.gone.items view.now) }
    {
        let index = index_near(view, uid, self.last);
        self.last = index;
        index - self.below(index) + 1
    }

    // Takes out the UID at an index of the view, before which so many are gone: notes it, or, where
    // there is no room, closes the view and then removes it.
    fn take_out_at(&mut self, view: &mut Vec<u32>, index: usize, before: usize)
        requires gone { AreIn self.old.gone.items view.old.items }
        requires index { index < length view.old.items }
        requires within { index - before < length (counted self.old.gone.items view.old.items) }
        requires before { before ≡ below index self.old.gone.items }
        requires counts { All (λ other. other ≢ index) self.old.gone.items }
        ensures gone { AreIn self.new.gone.items view.new.items }
        ensures counted { counted self.new.gone.items view.new.items
            ≡ remove (counted self.old.gone.items view.old.items) (index - before) }
        ensures rising { (later : List ℕ) → IsStrictlyIncreasing (view.old.items ++ later)
            → IsStrictlyIncreasing (view.new.items ++ later) }
        ensures len { vec_len view.new ≤ vec_len view.old }
        ensures capacity { vec_capacity view.new ≡ vec_capacity view.old }
    {
        if self.gone.len() < self.gone.capacity() {
            let _ = self.gone.insert(before, index);
            return;
        }
        self.close(view);
        view.remove(index - before);
    }

    /// Takes out a message, and answers the position that it had.
    pub fn take_out(&mut self, view: &mut Vec<u32>, uid: u32) -> usize
        // The indices that are gone lie in the view and rise; the message counts; the UIDs of the view rise.
        requires gone { AreIn self.old.gone.items view.old.items }
        requires there { Contains (counted self.old.gone.items view.old.items) uid }
        requires rising { IsStrictlyIncreasing view.old.items }

        // What counts is what did before, without this UID; the indices that are gone still lie in the view and rise.
        ensures gone { AreIn self.new.gone.items view.new.items }
        ensures counted { counted self.new.gone.items view.new.items
            ≡ without uid (counted self.old.gone.items view.old.items) }

        // Where the view rose, with any UIDs that are still to come behind it, it does so still.
        ensures rising { (later : List ℕ) → IsStrictlyIncreasing (view.old.items ++ later)
            → IsStrictlyIncreasing (view.new.items ++ later) }

        // The answer is the position that the message had among the UIDs that counted.
        ensures position { result ≡ position uid (counted self.old.gone.items view.old.items) }

        // The view never grows, and the vector keeps its room.
        ensures len { vec_len view.new ≤ vec_len view.old }
        ensures capacity { vec_capacity view.new ≡ vec_capacity view.old }
    {
        let index = index_near(view, uid, self.last);
        self.last = index;
        let before = self.below(index);
        self.take_out_at(view, index, before);
        index - before + 1
    }

    /// Leaves the UIDs that count, and none that is gone.
    pub fn close(&mut self, view: &mut Vec<u32>)
        // The indices that are gone lie in the view and rise.
        requires { AreIn self.old.gone.items view.old.items }
        // The view is what counted, and nothing is gone.
        ensures items { view.new.items ≡ counted self.old.gone.items view.old.items }
        ensures gone { self.new.gone.items ≡ [] }

        // The view never grows, and the vector keeps its room.
        ensures len { vec_len view.new ≤ vec_len view.old }
        ensures capacity { vec_capacity view.new ≡ vec_capacity view.old }
    {
        let mut gap = Gap::none();
        for (before, index) in self.gone.iter().enumerate() {
            gap = gap.without(view, *index - before);
        }
        gap.close(view);
        self.gone.clear();
    }
}

// The index of a UID in a view, which rises. Where it doesn't stand before the index `near`, only
// what is from there on is searched. So, where UIDs that rise are looked up one after another, each
// stands at the front of what is searched, and the searches all take the same turns.
fn index_near(view: &[u32], uid: u32, near: usize) -> usize
    requires there { Contains view.now uid }
    requires rising { IsStrictlyIncreasing view.now }
    ensures within { result < length view.now }
    ensures there { slice_index view.now result ≡ uid }
{
    if is_next(view, uid, near) {
        return near + 1;
    }
    if near < view.len() && view[near] <= uid {
        return near + index_of(&view[near..], uid);
    }
    index_of(view, uid)
}

// Whether a UID of a view stands right behind the index `near`: it does where one message after
// another is told of.
fn is_next(view: &[u32], uid: u32, near: usize) -> bool
    ensures { (result ≡ true)
        ↔ ((near + 1 < length view.now) × (slice_index view.now (near + 1) ≡ uid)) }
{
    near < view.len().saturating_sub(1) && view[near + 1] == uid
}

// The index of a UID in a view, which rises.
fn index_of(view: &[u32], uid: u32) -> usize
    requires there { Contains view.now uid }
    requires rising { IsStrictlyIncreasing view.now }
    ensures within { result < length view.now }
    ensures there { slice_index view.now result ≡ uid }
{
    match view.binary_search(&uid) {
        Ok(index) => index,
        Err(_) => unreachable!(),
    }
}
