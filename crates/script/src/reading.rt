//! How a line of the input is read: so much of it is kept as can mean anything, and the rest is passed over as it comes. What a line asks
//! for doesn't belong here.

ghost use Rattle.std.specs.Prelude.{false, true, ◌≡◌, ◌≢◌, ◌↔◌, ◌++◌, ◌∷◌, ◌<◌, ◌≤◌, ◌+◌, ℕ, List, Some, Ok, Err, IfNone, IfOk, IfSome, OnOk, OnErr, length, [], take, drop, slice_index};
ghost use Rattle.std.specs.Io.BufRead.{take_through, drop_through};
ghost use Rattle.script.specs.Script.{asked, line_of, most_bytes};
ghost use Rattle.script.specs.inner.Kept.{HasRead, IsPart, behind_line, most_kept};

use crate::line::MOST_BYTES;
use crate::run::TurnFault;
use memchr::memchr;
use std::io::{BufRead, Error, ErrorKind};

// The most bytes that are kept of a line, with its end: one that has so many is too long, or a comment, whatever comes behind them.
const MOST_KEPT: usize = MOST_BYTES + 3;

// How often the reader is asked for more of a line.
const MOST_LOOKS: u64 = u64::MAX;

fn fault_of(e: &Error) -> TurnFault
    ensures { (sent : ℕ) → result ≢ TurnFault.Write sent }
{
    match e.kind() {
        ErrorKind::OutOfMemory => TurnFault::NoMemory,
        _ => TurnFault::Read,
    }
}

// How many of the first bytes that are shown stand before the line's end, or all of them.
fn len_before_end(shown: &[u8], most: usize) -> usize
    requires { most ≤ length shown.now }
    ensures within { result ≤ most }
    ensures before { (k : ℕ) → k < result → slice_index shown.now k ≢ 10 }
    ensures stops { result < most → slice_index shown.now result ≡ 10 }
{
    match memchr(b'\n', &shown[..most]) {
        Some(at) => at,
        None => most,
    }
}

// How many of the bytes that are shown are the line's, no more than there is room for, and whether it ends with them. Where nothing
// is shown the input has ended, and the line with it.
fn part_of_line(shown: &[u8], room: usize) -> (usize, bool)
    ensures within { result.0 ≤ length shown.now }
    ensures room { result.0 ≤ room }
    ensures part { (left : List ℕ) → (length shown.now ≡ 0 → left ≡ [])
        → IsPart (take result.0 shown.now) left result.1 }
{
    let most = shown.len().min(room);
    let before = len_before_end(shown, most);
    if before < most {
        return (before + 1, true);
    }
    (before, shown.is_empty())
}

// Reads what the reader shows next of a line, and keeps it. Whether the line ended.
fn read_shown<R: BufRead>(reader: &mut R, line: &mut Vec<u8>) -> Result<bool, TurnFault>
    requires { length line.old.items ≤ most_kept }
    ensures read { IfOk result (λ ended. (xs : List ℕ) → R.remaining reader.old ≡ Some xs →
        HasRead xs line.old.items (R.remaining reader.new) line.new.items ended) }
    ensures bounded { length line.new.items ≤ most_kept }
    ensures fault { (sent : ℕ) → result ≢ Err (TurnFault.Write sent) }
{
    let shown = match reader.fill_buf() {
        Ok(shown) => shown,
        Err(e) => {
            return if e.kind() == ErrorKind::Interrupted {
                Ok(false)
            } else {
                Err(fault_of(&e))
            };
        }
    };
    let (used, ended) = part_of_line(shown, MOST_KEPT - line.len());
    let Ok(()) = line.extend_from_slice(&shown[..used]) else {
        return Err(TurnFault::NoMemory);
    };
    reader.consume(used);
    Ok(ended)
}

// Reads a line to its end, or as much as is kept of it. Whether it ended.
fn read_front<R: BufRead>(reader: &mut R, line: &mut Vec<u8>) -> Result<bool, TurnFault>
    requires { line.old.items ≡ [] }
    ensures read { IfOk result (λ ended. (xs : List ℕ) → R.remaining reader.old ≡ Some xs →
        HasRead xs [] (R.remaining reader.new) line.new.items ended) }
    ensures bounded { length line.new.items ≤ most_kept }
    ensures full { result ≡ Ok false → most_kept ≤ length line.new.items }
    ensures fault { (sent : ℕ) → result ≢ Err (TurnFault.Write sent) }
{
    for _ in 0..MOST_LOOKS {
        if line.len() >= MOST_KEPT {
            return Ok(false);
        }
        if read_shown(reader, line)? {
            return Ok(true);
        }
    }
    Err(TurnFault::Read)
}

// Passes over what is still to come of a line.
fn skip_rest<R: BufRead>(reader: &mut R, ended: bool) -> Result<(), TurnFault>
    ensures behind { OnOk result ((xs : List ℕ) → R.remaining reader.old ≡ Some xs
        → R.remaining reader.new ≡ Some (behind_line ended xs)) }
    ensures fault { (sent : ℕ) → result ≢ Err (TurnFault.Write sent) }
{
    if ended {
        return Ok(());
    }
    match reader.skip_until(b'\n') {
        Ok(_) => Ok(()),
        Err(e) => Err(fault_of(&e)),
    }
}

/// Reads the next line with its end, if there is one. One that is too long, or a long comment, is passed over as it comes: a front is
/// kept, which asks for the same.
pub(crate) fn read_piece<R: BufRead>(reader: &mut R, line: &mut Vec<u8>) -> Result<bool, TurnFault>
    ensures some { OnOk result ((xs : List ℕ) → R.remaining reader.old ≡ Some xs
        → asked (line_of line.new.items) ≡ asked (line_of (take_through 10 xs))) }
    ensures front { OnOk result ((xs : List ℕ) → R.remaining reader.old ≡ Some xs
        → take most_bytes (line_of line.new.items)
        ≡ take most_bytes (line_of (take_through 10 xs))) }
    ensures rest { OnOk result ((xs : List ℕ) → R.remaining reader.old ≡ Some xs
        → R.remaining reader.new ≡ Some (drop_through 10 xs)) }
    ensures end { IfOk result (λ some. some ≡ false → (xs : List ℕ)
        → R.remaining reader.old ≡ Some xs → xs ≡ []) }
    ensures more { IfOk result (λ some. some ≡ true → (xs : List ℕ)
        → R.remaining reader.old ≡ Some xs → 0 < length (take_through 10 xs)) }
    ensures bounded { length line.new.items ≤ most_kept }
    ensures fault { (sent : ℕ) → result ≢ Err (TurnFault.Write sent) }
{
    line.clear();
    let ended = read_front(reader, line)?;
    skip_rest(reader, ended)?;
    Ok(!line.is_empty())
}
