//! The flags of a message as an answer prints them, put or appended all or none.

ghost use Rattle.std.specs.Prelude.{◌≡◌, ◌++◌, ◌+◌, ◌<◌, ◌≤◌, [], drop, flat_map, length, if◌then◌else◌, OnOk, OnErr, vec_capacity};
ghost use Rattle.change_ring.specs.Words.{flag_words, spaced};
ghost use Rattle.imap_answers.specs.Answers.{flags_text};

use crate::words::put_parts;
use change_ring::Flags;
use line_io::Outlet;
use std::alloc::AllocError;

/// Room for all five flags with what stands around them.
const FLAGS_ROOM: usize = 49;

/// The name of a flag with a space before it, without that where it is the first, or nothing where the flag isn't set.
fn flag_word(is_set: bool, first: bool, word: &'static [u8]) -> &'static [u8]
    requires { 0 < length word.now }
    ensures { result.now ≡ (if is_set then (if first then drop 1 word.now else word.now) else []) }
{
    if !is_set {
        return b"";
    }
    if first { &word[1..] } else { word }
}

/// Puts the names of the flags that are set, with a space between two, in room that is held.
#[tactic(auto, using(crate::proofs::FlagWords::words_in_parts))]
fn put_flag_words<O: Outlet>(flags: Flags, out: &mut O)
    requires fits { length (spaced (flag_words flags)) ≤ O.room out.old }
    ensures said { O.said out.new ≡ O.said out.old ++ spaced (flag_words flags) }
    ensures lot { O.lot out.new ≡ O.lot out.old }
    ensures room { O.room out.old ≤ O.room out.new + length (spaced (flag_words flags)) }
{
    let second = !flags.answered;
    let third = second && !flags.flagged;
    let fourth = third && !flags.deleted;
    let fifth = fourth && !flags.seen;
    let answered = flag_word(flags.answered, true, b" \\Answered");
    let flagged = flag_word(flags.flagged, second, b" \\Flagged");
    let deleted = flag_word(flags.deleted, third, b" \\Deleted");
    let seen = flag_word(flags.seen, fourth, b" \\Seen");
    let draft = flag_word(flags.draft, fifth, b" \\Draft");
    put_parts(&[answered, flagged, deleted, seen, draft], out);
}

/// Puts the flags that are set, in room that is held.
pub(crate) fn put_flags<O: Outlet>(flags: Flags, out: &mut O)
    requires fits { length (flags_text flags) ≤ O.room out.old }
    ensures said { O.said out.new ≡ O.said out.old ++ flags_text flags }
    ensures lot { O.lot out.new ≡ O.lot out.old }
    ensures room { O.room out.old ≤ O.room out.new + length (flags_text flags) }
{
    out.put(b"FLAGS (");
    put_flag_words(flags, out);
    out.put(b")");
}

/// Appends the flags that are set, or nothing where memory is refused.
#[tactic(auto, using(crate::proofs::FlagWords::flags_fit))]
pub(crate) fn write_flags(flags: Flags, out: &mut Vec<u8>) -> Result<(), AllocError>
    ensures ok { OnOk result (out.new.items ≡ out.old.items ++ flags_text flags) }
    ensures err { OnErr result (out.new.items ≡ out.old.items) }
    ensures room { vec_capacity out.old ≤ vec_capacity out.new }
{
    out.hold(FLAGS_ROOM)?;
    put_flags(flags, out);
    Ok(())
}
