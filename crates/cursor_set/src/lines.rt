//! The lines that show changes to a client, written in room that was reserved, and what the client
//! counts after them. Which changes are shown, and to whom, is told in `set`.

ghost use Rattle.std.specs.Prelude.{◌≡◌, ◌+◌, ◌*◌, ◌≤◌, [], ◌++◌, List, length, ◌∷◌, not, ◌&&◌, if◌then◌else◌, codes, decimal, vec_len, vec_capacity};
ghost use Rattle.std.specs.List.Sorted.{IsStrictlyIncreasing};
ghost use Rattle.change_ring.specs.declared.change.Change.{Change};
ghost use Rattle.change_ring.specs.Log.{Names, added, shown, replay};
ghost use Rattle.cursor_set.specs.Leaving.{counted, AreIn};
ghost use Rattle.cursor_set.specs.Legal.{IsLegalOn};
ghost use Rattle.cursor_set.specs.Lines.{fetch_line, line, lines};
ghost use Rattle.change_ring.specs.Words.{flag_words, spaced};

use crate::leaving::Leaving;
use change_ring::{Change, Flags};
use itoa::Buffer;

/// Room for any line: a FETCH with two numbers of 20 digits and all five flags has 106 bytes.
pub const LINE_ROOM: usize = 107;

// Writes text in room that was reserved.
fn put(text: &[u8], out: &mut Vec<u8>)
    requires { vec_len out.old + length text.now ≤ vec_capacity out.old }
    ensures items { out.new.items ≡ out.old.items ++ text.now }
    ensures len { vec_len out.new ≡ vec_len out.old + length text.now }
    ensures capacity { vec_capacity out.old ≤ vec_capacity out.new }
{
    let _ = out.extend_from_slice(text);
}

// Writes a number in the same way.
#[tactic(auto, using(crate::proofs::Numbers::length_decimal))]
fn put_number(number: usize, out: &mut Vec<u8>)
    requires { vec_len out.old + 20 ≤ vec_capacity out.old }
    ensures items { out.new.items ≡ out.old.items ++ decimal number }
    ensures len { vec_len out.new ≤ vec_len out.old + 20 }
    ensures capacity { vec_capacity out.old ≤ vec_capacity out.new }
{
    let mut buffer = Buffer::new();
    put(buffer.format(number).as_bytes(), out);
}

// Writes the name of a flag that is set, behind a space unless it is the first. Says whether none
// was written yet.
fn put_flag(set: bool, word: &[u8], first: bool, out: &mut Vec<u8>) -> bool
    requires { vec_len out.old + 1 + length word.now ≤ vec_capacity out.old }
    ensures first { result ≡ (first && not set) }
    ensures items { out.new.items
        ≡ out.old.items ++ (if set then (if first then word.now else 32 ∷ word.now) else []) }
    ensures len { vec_len out.new ≤ vec_len out.old + 1 + length word.now }
    ensures capacity { vec_capacity out.old ≤ vec_capacity out.new }
{
    if !set {
        return first;
    }
    if !first {
        put(b" ", out);
    }
    put(word, out);
    false
}

/// Room for the names of all five flags.
pub const FLAGS_ROOM: usize = 41;

/// Writes the names of the flags that are set, with a space between two, behind `out`, which has room
/// for them (RFC 9051, 2.3.2).
pub fn put_flags(flags: Flags, out: &mut Vec<u8>)
    // There is room for the names of all five flags.
    requires { vec_len out.old + 41 ≤ vec_capacity out.old }
    // The names of the flags that are set go behind `out`, with a space between two, and `out` keeps its room or has more.
    ensures items { out.new.items ≡ out.old.items ++ spaced (flag_words flags) }
    ensures len { vec_len out.new ≤ vec_len out.old + 41 }
    ensures capacity { vec_capacity out.old ≤ vec_capacity out.new }
{
    let first = put_flag(flags.answered, b"\\Answered", true, out);
    let first = put_flag(flags.flagged, b"\\Flagged", first, out);
    let first = put_flag(flags.deleted, b"\\Deleted", first, out);
    let first = put_flag(flags.seen, b"\\Seen", first, out);
    put_flag(flags.draft, b"\\Draft", first, out);
}

// Writes a line's mark, a number and what follows it.
fn put_numbered(number: usize, text: &[u8], out: &mut Vec<u8>)
    requires { vec_len out.old + 22 + length text.now ≤ vec_capacity out.old }
    ensures items { out.new.items ≡ out.old.items ++ (codes "* " ++ decimal number ++ text.now) }
    ensures len { vec_len out.new ≤ vec_len out.old + 22 + length text.now }
    ensures capacity { vec_capacity out.old ≤ vec_capacity out.new }
{
    put(b"* ", out);
    put_number(number, out);
    put(text, out);
}

// Writes the line of a message's flags.
fn put_fetch(number: usize, uid: u32, flags: Flags, out: &mut Vec<u8>)
    requires { vec_len out.old + LINE_ROOM ≤ vec_capacity out.old }
    ensures items { out.new.items ≡ out.old.items ++ fetch_line number uid flags }
    ensures len { vec_len out.new ≤ vec_len out.old + LINE_ROOM }
    ensures capacity { vec_capacity out.old ≤ vec_capacity out.new }
{
    put_numbered(number, b" FETCH (UID ", out);
    put_number(uid as usize, out);
    put(b" FLAGS (", out);
    put_flags(flags, out);
    put(b"))\r\n", out);
}

// Shows one change: its line, and the view after it.
fn show_change(change: Change, leaving: &mut Leaving, view: &mut Vec<u32>, out: &mut Vec<u8>)
    requires gone { AreIn leaving.old.gone.items view.old.items }
    requires there { Names (counted leaving.old.gone.items view.old.items) change }
    requires rising { IsStrictlyIncreasing view.old.items }
    requires view_room { vec_len view.old + 1 ≤ vec_capacity view.old }
    requires out_room { vec_len out.old + LINE_ROOM ≤ vec_capacity out.old }

    ensures gone { AreIn leaving.new.gone.items view.new.items }
    ensures view { counted leaving.new.gone.items view.new.items
        ≡ shown (counted leaving.old.gone.items view.old.items) change }
    ensures rising { (later : List Change)
        → IsStrictlyIncreasing (view.old.items ++ added (change ∷ later))
        → IsStrictlyIncreasing (view.new.items ++ added later) }
    ensures text { out.new.items
        ≡ out.old.items ++ line (counted leaving.old.gone.items view.old.items) change }

    ensures view_len { vec_len view.new ≤ vec_len view.old + 1 }
    ensures view_capacity { vec_capacity view.old ≤ vec_capacity view.new }
    ensures out_len { vec_len out.new ≤ vec_len out.old + LINE_ROOM }
    ensures out_capacity { vec_capacity out.old ≤ vec_capacity out.new }
{
    match change {
        Change::Add(uid) => {
            view.push_reserved(uid);
            put_numbered(leaving.count(view), b" EXISTS\r\n", out);
        }
        Change::Gone(uid) => {
            let position = leaving.take_out(view, uid);
            put_numbered(position, b" EXPUNGE\r\n", out);
        }
        Change::Flags(uid, flags) => put_fetch(leaving.position(view, uid), uid, flags, out),
    }
}

/// Shows changes: their lines, and the view after them. What is taken out is noted beside the view,
/// which is closed at the end, so that it isn't moved for each.
pub fn show_changes(changes: &[Change], view: &mut Vec<u32>, out: &mut Vec<u8>)
    // UIDs rise, those of the view and then those that are added, and each change speaks of a message that is there then.
    requires legal { IsLegalOn view.old.items changes.now }
    // There is room for each message that may be added, and for the longest line of each change.
    requires view_room { vec_len view.old + length changes.now ≤ vec_capacity view.old }
    requires out_room { vec_len out.old + length changes.now * LINE_ROOM ≤ vec_capacity out.old }

    // The client counts what it did, with these changes replayed.
    ensures view { view.new.items ≡ replay view.old.items changes.now }
    // A line for each change goes behind `out`, as the client counts after the changes before it.
    ensures text { out.new.items ≡ out.old.items ++ lines view.old.items changes.now }

    // The view grows by a UID a change at most, `out` by a line of the longest; neither has less room.
    ensures view_len { vec_len view.new ≤ vec_len view.old + length changes.now }
    ensures view_capacity { vec_capacity view.old ≤ vec_capacity view.new }
    ensures out_len { vec_len out.new ≤ vec_len out.old + length changes.now * LINE_ROOM }
    ensures out_capacity { vec_capacity out.old ≤ vec_capacity out.new }
{
    let mut leaving = Leaving::new(*view.allocator(), changes);
    for change in changes {
        show_change(*change, &mut leaving, view, out);
    }
    leaving.close(view);
}
