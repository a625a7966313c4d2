//! A gap that moves up a view: it takes in one UID after another and is closed at the end. So each
//! UID behind the first of them is moved once. Which UIDs are taken in is told in `leaving`.

ghost use Rattle.std.specs.Prelude.{◌≡◌, ◌+◌, ◌<◌, ◌≤◌, length, remove, vec_len, vec_capacity};
ghost use Rattle.cursor_set.specs.Gap.{around, IsGapOf};

/// The part of a view that was taken in, from the index `start` up to `end`.
#[derive(Clone, Copy)]
pub struct Gap {
    start: usize,
    end: usize,
}

impl Gap {
    /// A gap of no UIDs.
    pub fn none() -> Gap
        ensures { result ≡ record { start = 0; end = 0 } }
    {
        Gap { start: 0, end: 0 }
    }

    // Moves the gap up before the UID that is counted at this index, or behind the last.
    fn moved(self, view: &mut Vec<u32>, index: usize) -> Gap
        requires gap { IsGapOf self view.old.items }
        requires up { self.start ≤ index }
        requires within { index ≤ length (around self view.old.items) }
        ensures gap { IsGapOf result view.new.items }
        ensures around { around result view.new.items ≡ around self view.old.items }
        ensures start { result.start ≡ index }
        ensures len { vec_len view.new ≡ vec_len view.old }
        ensures capacity { vec_capacity view.new ≡ vec_capacity view.old }
    {
        // A gap of no UIDs is anywhere.
        if self.start == self.end {
            return Gap {
                start: index,
                end: index,
            };
        }
        let end = self.end + (index - self.start);
        view.copy_within(self.end..end, self.start);
        Gap { start: index, end }
    }

    /// Takes in the UID that is counted at this index, which isn't before the gap.
    pub fn without(self, view: &mut Vec<u32>, index: usize) -> Gap
        // The gap is a part of the view, and the index, of what stands on either side of it, is not before it.
        requires gap { IsGapOf self view.old.items }
        requires up { self.start ≤ index }
        requires within { index < length (around self view.old.items) }

        // The gap is a part of the view still; on either side stands what did, without the UID at the index.
        ensures gap { IsGapOf result view.new.items }
        ensures around { around result view.new.items ≡ remove (around self view.old.items) index }
        ensures start { result.start ≡ index }

        // The vector keeps its length and its room.
        ensures len { vec_len view.new ≡ vec_len view.old }
        ensures capacity { vec_capacity view.new ≡ vec_capacity view.old }
    {
        let gap = self.moved(view, index);
        Gap {
            start: gap.start,
            end: gap.end + 1,
        }
    }

    /// Leaves the UIDs on either side, and no gap.
    pub fn close(self, view: &mut Vec<u32>)
        requires { IsGapOf self view.old.items }
        // What stood on either side of the gap is the view now; the vector keeps its room.
        ensures items { view.new.items ≡ around self view.old.items }
        ensures len { vec_len view.new ≤ vec_len view.old }
        ensures capacity { vec_capacity view.new ≡ vec_capacity view.old }
    {
        let count = view.len() - (self.end - self.start);
        let gap = self.moved(view, count);
        view.truncate(gap.start);
    }
}
