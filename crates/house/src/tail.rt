//! What is printed of a mailbox's last changes, a line for each and one for their number. No connection and no event is known here.

ghost use Rattle.std.specs.Prelude.{◌≡◌, ◌≢◌, ◌↔◌, None, Err, ◌++◌, ◌+◌, length, OnOk, OnErr, decimal, flat_map};
ghost use Rattle.std.specs.Io.{StartsWith};
ghost use Rattle.envelope.specs.Names.{number_of};
ghost use Rattle.house.specs.Setup.{Setup};
ghost use Rattle.house.specs.Scene.{Scene};
ghost use Rattle.house.specs.Stands.{StandsFor};
ghost use Rattle.change_ring.specs.Words.{flag_words, spaced};
ghost use Rattle.house.specs.Window.{PrintsWindow, change_text, tail_line, tail_text};

use crate::event::HouseFault;
use crate::house::House;
use change_ring::{Change, Flags};
use cursor_set::{FLAGS_ROOM, put_flags};
use itoa::Buffer;
use line_io::append_parts;
use std::alloc::AllocError;

// Prints the words of the flags that are set, or nothing.
fn print_flags(flags: Flags, out: &mut Vec<u8>) -> Result<(), AllocError>
    ensures ok { OnOk result (out.new.items ≡ out.old.items ++ spaced (flag_words flags)) }
    ensures err { OnErr result (out.new.items ≡ out.old.items) }
{
    out.reserve(FLAGS_ROOM)?;
    put_flags(flags, out);
    Ok(())
}

// Prints a change of a message's flags, or a part of the line.
fn print_flags_line(
    word: &[u8],
    uid: u32,
    flags: Flags,
    out: &mut Vec<u8>,
) -> Result<(), AllocError>
    ensures ok { OnOk result (out.new.items
        ≡ out.old.items ++ tail_line word.now (change_text (Change.Flags uid flags))) }
    ensures err { OnErr result (StartsWith out.new.items out.old.items) }
{
    let mut digits = Buffer::new();
    let uid = digits.format(uid).as_bytes();
    append_parts(
        &[
            b"T ".as_slice(),
            word,
            b" flags ".as_slice(),
            uid,
            b" (".as_slice(),
        ],
        out,
    )?;
    print_flags(flags, out)?;
    append_parts(&[b")\n".as_slice()], out)
}

// Prints a line of this word, kind and number, or nothing.
fn print_number(word: &[u8], kind: &[u8], number: u128, out: &mut Vec<u8>) -> Result<(), AllocError>
    ensures ok { OnOk result (out.new.items
        ≡ out.old.items ++ tail_line word.now (kind.now ++ decimal number)) }
    ensures err { OnErr result (out.new.items ≡ out.old.items) }
{
    let mut digits = Buffer::new();
    let number = digits.format(number).as_bytes();
    append_parts(
        &[
            b"T ".as_slice(),
            word,
            b" ".as_slice(),
            kind,
            number,
            b"\n".as_slice(),
        ],
        out,
    )
}

// Prints a change, or a part of it.
fn print_change(word: &[u8], change: Change, out: &mut Vec<u8>) -> Result<(), AllocError>
    ensures ok { OnOk result (out.new.items
        ≡ out.old.items ++ tail_line word.now (change_text change)) }
    ensures err { OnErr result (StartsWith out.new.items out.old.items) }
{
    match change {
        Change::Add(uid) => print_number(word, b"add ", u128::from(uid), out),
        Change::Gone(uid) => print_number(word, b"gone ", u128::from(uid), out),
        Change::Flags(uid, flags) => print_flags_line(word, uid, flags, out),
    }
}

// Prints the changes, or as many of them as there is memory for.
fn print_changes(word: &[u8], changes: &[Change], out: &mut Vec<u8>) -> Result<(), AllocError>
    ensures ok { OnOk result (out.new.items
        ≡ out.old.items ++ flat_map (λ c. tail_line word.now (change_text c)) changes.now) }
    ensures err { OnErr result (StartsWith out.new.items out.old.items) }
{
    for change in changes {
        print_change(word, *change, out)?;
    }
    Ok(())
}

// Prints the tail, or a part of it.
fn print_parts(
    word: &[u8],
    base: u64,
    first: &[Change],
    second: &[Change],
    out: &mut Vec<u8>,
) -> Result<(), AllocError>
    ensures ok { OnOk result (out.new.items ≡ out.old.items ++
        tail_text word.now (first.now ++ second.now) (base + length (first.now ++ second.now))) }
    ensures err { OnErr result (StartsWith out.new.items out.old.items) }
{
    print_changes(word, first, out)?;
    print_changes(word, second, out)?;
    let total = u128::from(base) + first.len() as u128 + second.len() as u128;
    print_number(word, b"total ", total, out)
}

/// Prints a mailbox's changes, the first ones and then the second ones, of which the first has the number `base`, and how many changes
/// the mailbox ever had; or nothing where memory is wanting.
pub fn print_tail(
    word: &[u8],
    base: u64,
    first: &[Change],
    second: &[Change],
    out: &mut Vec<u8>,
) -> Result<(), AllocError>
    ensures ok { OnOk result (out.new.items ≡ out.old.items ++
        tail_text word.now (first.now ++ second.now) (base + length (first.now ++ second.now))) }
    ensures err { OnErr result (out.new.items ≡ out.old.items) }
{
    let before = out.len();
    let Ok(()) = print_parts(word, base, first, second, out) else {
        out.truncate(before);
        return Err(AllocError);
    };
    Ok(())
}

impl House {
    /// Prints the last changes of the mailbox that a word names, or nothing: Nobody exactly where the word names none, NoMemory where
    /// memory is wanting. Busy and Nothing never come while the house stands.
    pub fn tail(&self, word: &[u8], out: &mut Vec<u8>) -> Result<(), HouseFault>
        // In each scene for which the house stands: of the mailbox that the word names, each change of its window, and how many there ever were.
        ensures window { OnOk result ((k : Setup) (s : Scene) → StandsFor k self.now s
            → PrintsWindow k s word.now out.old.items out.new.items) }

        // Nobody exactly where the word names no mailbox; Busy never, and Nothing only in a house that stands for no scene.
        ensures nobody { (result ≡ Err HouseFault.Nobody)
            ↔ (number_of self.now.directory word.now ≡ None) }
        ensures busy { result ≢ Err HouseFault.Busy }
        ensures nothing { result ≡ Err HouseFault.Nothing → (k : Setup) (s : Scene)
            → StandsFor k self.now s → ⊥ }

        // A refusal prints nothing.
        ensures refused { OnErr result (out.new.items ≡ out.old.items) }
    {
        let Some(mailbox) = self.directory.number_of(word) else {
            return Err(HouseFault::Nobody);
        };
        let Some((base, first, second)) = self.store.core.tail(mailbox) else {
            return Err(HouseFault::Nothing);
        };
        print_tail(word, base, first, second, out)?;
        Ok(())
    }
}
