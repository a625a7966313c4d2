//! What is told of a mailbox that was entered (RFC 9051, 6.3.2): its flags, how many messages it has, and what its UIDs are worth.
//! Which mailbox is entered is the session's matter.

ghost use Rattle.std.specs.Prelude.{◌≡◌, ◌++◌, ◌+◌, ◌≤◌, [], if◌then◌else◌, length};
ghost use Rattle.imap_answers.specs.Answers.{opening_text};

use crate::words::put_between;
use itoa::Buffer;
use line_io::Outlet;
use mailbox::Opening;

/// Room for what is told of a mailbox that was entered, beside its name: numbers of 20, 10 and 10 digits are the longest.
pub const OPENING_ROOM: usize = 264;

/// Which of all flags a client can change for good in a mailbox: none where it was selected by EXAMINE.
fn kept_flags(read_only: bool, all: &[u8]) -> &[u8]
    ensures kept { result.now ≡ (if read_only then [] else all.now) }
    ensures short { length result.now ≤ length all.now }
{
    if read_only { &all[..0] } else { all }
}

/// Writes what is told of the mailbox of this name that was entered, read-only where by EXAMINE, behind `out`, which has room
/// for it: who enters one reserves that before, and so tells of each that was entered.
#[tactic(auto, using(crate::proofs::OpeningParts::ten_digits, crate::proofs::OpeningParts::twenty_digits))]
pub fn put_opening<O: Outlet>(read_only: bool, name: &[u8], opening: &Opening, out: &mut O)
    // `out` has room for the name's length and 264 bytes more.
    requires { length name.now + 264 ≤ O.room out.old }

    // What is told is `opening_text`, byte by byte, in no more room than that.
    ensures items { O.said out.new ≡ O.said out.old ++ opening_text read_only name.now opening.now }
    ensures room { O.room out.old ≤ O.room out.new + (length name.now + 264) }
    ensures lot { O.lot out.new ≡ O.lot out.old }
{
    let mut count = Buffer::new();
    let mut uidvalidity = Buffer::new();
    let mut uidnext = Buffer::new();
    let count = count.format(opening.count).as_bytes();
    let uidvalidity = uidvalidity.format(opening.uidvalidity).as_bytes();
    let uidnext = uidnext.format(opening.uidnext).as_bytes();
    let all = b"\\Answered \\Flagged \\Deleted \\Seen \\Draft".as_slice();
    let kept = kept_flags(read_only, all);
    put_between(b"* FLAGS (", all, b")\r\n", out);
    put_between(b"* ", count, b" EXISTS\r\n", out);
    put_between(b"* OK [UIDVALIDITY ", uidvalidity, b"] UIDs valid\r\n", out);
    put_between(b"* OK [UIDNEXT ", uidnext, b"] Predicted next UID\r\n", out);
    put_between(b"* OK [PERMANENTFLAGS (", kept, b")] Flags kept\r\n", out);
    put_between(b"* LIST () \"/\" ", name, b"\r\n", out);
}
