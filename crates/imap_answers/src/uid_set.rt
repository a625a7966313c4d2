//! A set of UIDs as it is written (RFC 9051, 9: uid-set), with the bytes that specs/Answers.antt gives: numbers that follow one another are one range.
//! Which UIDs are told, and of what, is the session's matter.

ghost use Rattle.std.specs.Prelude.{◌≡◌, ◌==◌, ◌+◌, ◌*◌, ◌≤◌, ◌++◌, ◌∷◌, ℕ, List, false, length};
ghost use Rattle.imap_answers.specs.Answers.{range_text, runs_text, uid_set};
ghost use Rattle.imap_answers.specs.inner.Ranges.{most_of};

use itoa::Buffer;
use line_io::Outlet;

// Whether a number stands right behind another.
fn follows(last: u32, uid: u32) -> bool
    ensures { result ≡ (uid == last + 1) }
{
    last < uid && uid - last == 1
}

// Writes two numbers that are apart as the ends of a range, in room that was reserved.
#[tactic(auto, using(crate::proofs::OpeningParts::ten_digits))]
fn put_ends<O: Outlet>(first: u32, last: u32, out: &mut O)
    requires apart { (first == last) ≡ false }
    requires fits { 21 ≤ O.room out.old }
    ensures text { O.said out.new ≡ O.said out.old ++ range_text first last }
    ensures room { O.room out.old ≤ O.room out.new + 21 }
    ensures lot { O.lot out.new ≡ O.lot out.old }
{
    let mut from = Buffer::new();
    let mut to = Buffer::new();
    out.put(from.format(first).as_bytes());
    out.put(b":");
    out.put(to.format(last).as_bytes());
}

// Writes the numbers from one to another, in room that was reserved.
#[tactic(auto, using(crate::proofs::OpeningParts::ten_digits))]
fn put_range<O: Outlet>(first: u32, last: u32, out: &mut O)
    requires fits { most_of first last ≤ O.room out.old }
    ensures text { O.said out.new ≡ O.said out.old ++ range_text first last }
    ensures room { O.room out.old ≤ O.room out.new + most_of first last }
    ensures lot { O.lot out.new ≡ O.lot out.old }
{
    if first != last {
        return put_ends(first, last, out);
    }
    let mut digits = Buffer::new();
    out.put(digits.format(first).as_bytes());
}

// Goes on behind a run with one number more: it stands in that run, or the run is written and another begins. The answer is where the run at hand begins.
fn put_next<O: Outlet>(first: u32, last: u32, uid: u32, out: &mut O) -> u32
    requires fits { most_of first last + 1 ≤ O.room out.old }
    ensures text { (uids : List ℕ) → O.said out.new ++ runs_text result uid uids
        ≡ O.said out.old ++ runs_text first last (uid ∷ uids) }
    ensures room { O.room out.old + most_of result uid
        ≤ O.room out.new + (most_of first last + 11) }
    ensures lot { O.lot out.new ≡ O.lot out.old }
{
    if follows(last, uid) {
        return first;
    }
    put_range(first, last, out);
    out.put(b",");
    uid
}

// Writes a set that begins with this number, in room that was reserved.
fn put_runs<O: Outlet>(uid: u32, uids: &[u32], out: &mut O)
    requires fits { 11 + 11 * length uids.now ≤ O.room out.old }
    ensures text { O.said out.new ≡ O.said out.old ++ runs_text uid uid uids.now }
    ensures room { O.room out.old ≤ O.room out.new + (11 + 11 * length uids.now) }
    ensures lot { O.lot out.new ≡ O.lot out.old }
{
    let mut first = uid;
    let mut last = uid;
    for next in uids {
        first = put_next(first, last, *next, out);
        last = *next;
    }
    put_range(first, last, out);
}

/// Writes a set of UIDs in their order behind `out`, which has room for it (RFC 9051, 9: uid-set; RFC 4315): each run of numbers that follow one another is a
/// range, as in `3,5:7`, and of no UIDs nothing is written. Who tells a set reserves its room before there is anything to tell.
pub fn put_uid_set<O: Outlet>(uids: &[u32], out: &mut O)
    // `out` has room for 11 bytes a UID: ten digits, and a comma or colon.
    requires fits { 11 * length uids.now ≤ O.room out.old }

    // The set is `uid_set`, byte by byte, in no more room than that.
    ensures text { O.said out.new ≡ O.said out.old ++ uid_set uids.now }
    ensures room { O.room out.old ≤ O.room out.new + 11 * length uids.now }
    ensures lot { O.lot out.new ≡ O.lot out.old }
{
    if let Some((uid, more)) = uids.split_first() {
        put_runs(*uid, more, out);
    }
}
