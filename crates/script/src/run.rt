//! A script's run: line after line is read and done, the house settles, and what the line printed is written. How a line is read and
//! how things are printed is told elsewhere.

ghost use Rattle.std.specs.Prelude.{false, true, ◌≡◌, ◌≢◌, ◌↔◌, ◌++◌, ◌∷◌, ◌<◌, ◌≤◌, ◌+◌, ◌*◌, ◌^◌, ℕ, List, Some, Ok, Err, IfNone, IfOk, IfSome, OnOk, OnErr, length, replicate, []};
ghost use Rattle.hex.specs.Hex.{decode_of};
ghost use Rattle.hex.specs.declared.error.FromHexError.TheVariants.{OutOfMemory};
ghost use Rattle.line_io.specs.Wire.{crlf};
ghost use Rattle.std.specs.List.{list_all};
ghost use Rattle.std.specs.Char.{digit_value};
ghost use Rattle.std.specs.Str.Parse.{digits_value};
ghost use Rattle.script.specs.inner.Running.{IsClipped, line_for, LineDone, LinePlayed, LineTold, SetsHeld, TellWanting, TurnTells};
ghost use Rattle.house.specs.Scene as scene;
ghost use Rattle.house.specs.Setup.{Setup};
ghost use Rattle.house.specs.Steps.{MayFindNothing};
ghost use Rattle.house.specs.Scene.{empty_scene};
ghost use Rattle.script.specs.Script as spec;
ghost use Rattle.script.specs.Script.{asked, brought, held_after, is_digit, line_of, script_of};
ghost use Rattle.script.specs.Promise.{refusal};
ghost use Rattle.script.specs.Leaving.{IsLeft, IsLeftWanting, LineWanting, PlayWanting, Writes, WritesBeginning, WritesFirst};
ghost use Rattle.house.specs.Stands.{StandsFor};
ghost use Rattle.script.specs.Wrote.{WroteOnce};
ghost use Rattle.script.specs.Telling.{RunTells, lines_of};

use crate::line::{ScriptLine, read_line, without_end};
use crate::reading::read_piece;
use crate::telling::{Spelled, render};
use hex::{FromHexError, decode};
use house::{Event, House, HouseFault};
use itoa::Buffer;
use line_io::{Sink, append_parts, send};
use settings::Form;
use std::alloc::{AllocError, Global};
use std::io::BufRead;
use thiserror::Error;

/// How often a run reads: a script of this many lines or more doesn't end.
pub const MOST_LINES: u64 = 4_294_967_296;

/// Why a run ended before the end of its input.
#[derive(Clone, Copy, Debug, PartialEq, Eq, Error)]
pub enum RunFault {
    /// The input could not be read, or 2^32 lines of it were.
    #[error("the input could not be read")]
    Read,
    /// The output took no more than the first `sent` bytes.
    #[error("the output failed after {sent} bytes")]
    Write { sent: u128 },
    /// Memory was wanting.
    #[error("out of memory")]
    NoMemory,
}

/// Why a turn of a run failed.
#[derive(Clone, Copy, Debug, PartialEq, Eq)]
pub(crate) enum TurnFault {
    /// The input could not be read.
    Read,
    /// Of what the line printed the first `sent` bytes were written.
    Write { sent: u128 },
    /// Memory was wanting.
    NoMemory,
}

// What a run keeps from line to line: which shards are held, and room for the line as it was read, for what a connection is told, for
// what is printed or tells of it, and for what is spelled in JSON.
#[derive(Drop)]
struct Room {
    held: Vec<bool>,
    line: Vec<u8>,
    piece: Vec<u8>,
    out: Vec<u8>,
    spelled: Spelled,
}

// Prints that line `number` can't be done, or nothing.
fn refuse(number: u64, why: &[u8], out: &mut Vec<u8>) -> Result<(), AllocError>
    ensures ok { OnOk result (out.new.items ≡ out.old.items ++ refusal number why.now) }
    ensures err { OnErr result (out.new.items ≡ out.old.items) }
{
    let mut digits = Buffer::new();
    let number = digits.format(number).as_bytes();
    append_parts(
        &[
            b"? ".as_slice(),
            number,
            b" ".as_slice(),
            why,
            b"\n".as_slice(),
        ],
        out,
    )
}

// The text as a line of the wire, in `piece`.
fn put_line(text: &[u8], piece: &mut Vec<u8>) -> Result<(), AllocError>
    ensures { OnOk result (piece.new.items ≡ text.now ++ 13 ∷ 10 ∷ []) }
{
    piece.clear();
    piece.extend_from_slice(text)?;
    piece.extend_from_slice(b"\r\n")
}

// Does the event that a line asks for, or prints that it can't be done: there is nobody there, or one who can't.
fn do_event(
    house: &mut House,
    number: u64,
    event: Event<'_>,
    out: &mut Vec<u8>,
) -> Result<(), AllocError>
    requires asked { MayFindNothing event → ⊥ }
    ensures done { OnOk result ((k : Setup) (s : scene.Scene) → StandsFor k house.old s →
        LineDone k number (line_for event.entry) s house.new out.old.items out.new.items) }
    ensures wanting { OnErr result ((k : Setup) (s : scene.Scene) → StandsFor k house.old s
        → LineWanting k (line_for event.entry) s house.new) }
{
    match house.step(event, out) {
        Ok(()) => Ok(()),
        Err(HouseFault::Nobody) => refuse(number, b"Nobody", out),
        Err(HouseFault::Busy) => refuse(number, b"Busy", out),
        Err(HouseFault::Nothing) => unreachable!(),
        Err(HouseFault::NoMemory) => Err(AllocError),
    }
}

// A line comes from the peer of a connection.
fn hear_line(
    house: &mut House,
    number: u64,
    connection: u8,
    text: &[u8],
    piece: &mut Vec<u8>,
    out: &mut Vec<u8>,
) -> Result<(), AllocError>
    ensures done { OnOk result ((k : Setup) (s : scene.Scene) → StandsFor k house.old s →
        LineDone k number (spec.Sends connection (text.now
        ++ crlf)) s house.new out.old.items out.new.items) }
    ensures wanting { OnErr result ((k : Setup) (s : scene.Scene) → StandsFor k house.old s →
        LineWanting k (spec.Sends connection (text.now ++ crlf)) s house.new) }
{
    put_line(text, piece)?;
    do_event(house, number, Event::Bytes(connection, piece), out)
}

// Whether memory was wanting.
fn is_want(fault: FromHexError) -> bool
    ensures { (result ≡ true) ↔ (fault ≡ OutOfMemory) }
{
    matches!(fault, FromHexError::OutOfMemory)
}

// The bytes that hexadecimal digits stand for, if the digits can be read and there are any.
fn bytes_of(alloc: Global, digits: &[u8]) -> Result<Option<Vec<u8>>, AllocError>
    ensures some { IfOk result (λ o.
        IfSome o (λ v. (brings : List ℕ → spec.ScriptLine)
        → brought brings (decode_of digits.now) ≡ brings v.items)) }
    ensures none { IfOk result (λ o.
        IfNone o ((brings : List ℕ → spec.ScriptLine)
        → brought brings (decode_of digits.now) ≡ spec.Bad)) }
{
    let bytes = match decode(alloc, digits) {
        Ok(bytes) => bytes,
        Err(fault) if is_want(fault) => return Err(AllocError),
        Err(_) => return Ok(None),
    };
    if bytes.is_empty() {
        return Ok(None);
    }
    Ok(Some(bytes))
}

// Bytes in hexadecimal digits come from it, unless the digits can't be read or there are none.
fn hear_hex(
    alloc: Global,
    house: &mut House,
    number: u64,
    connection: u8,
    digits: &[u8],
    out: &mut Vec<u8>,
) -> Result<(), AllocError>
    ensures done { OnOk result ((k : Setup) (s : scene.Scene) → StandsFor k house.old s →
        LineDone k number (brought (spec.Sends connection) (decode_of digits.now)) s house.new
        out.old.items out.new.items) }
    ensures wanting { OnErr result ((k : Setup) (s : scene.Scene) → StandsFor k house.old s →
        LineWanting k (brought (spec.Sends connection) (decode_of digits.now)) s house.new) }
{
    match bytes_of(alloc, digits)? {
        Some(bytes) => do_event(house, number, Event::Bytes(connection, &bytes), out),
        None => refuse(number, b"Line", out),
    }
}

// The same with one digit more.
fn clipped_more(value: usize, digit: u8) -> usize
    requires digit { is_digit digit ≡ true }
    requires small { value ≤ 256 }
    ensures small { result ≤ 256 }
    ensures clipped { (n : ℕ) → IsClipped value n → IsClipped result (n * 10 + digit_value digit) }
{
    let more = value * 10 + usize::from(digit - b'0');
    if more < 256 { more } else { 256 }
}

// The number that decimal digits write, or 256 where that is less.
fn clipped_number(digits: &[u8]) -> usize
    requires { list_all is_digit digits.now ≡ true }
    ensures { IsClipped result (digits_value 10 digits.now) }
{
    let mut value = 0;
    for digit in digits {
        value = clipped_more(value, *digit);
    }
    value
}

// A shard's consumer stands still from now on, or goes on; there may be no such shard.
fn set_held(
    held: &mut Vec<bool>,
    number: u64,
    digits: &[u8],
    is_held: bool,
    out: &mut Vec<u8>,
) -> Result<(), AllocError>
    requires digits { list_all is_digit digits.now ≡ true }
    requires few { length held.old.items ≤ 256 }
    ensures sets { OnOk result
        (SetsHeld held.old.items number (digits_value 10 digits.now) is_held held.new.items
        out.old.items out.new.items) }
    ensures as_many { length held.new.items ≡ length held.old.items }
{
    let shard = clipped_number(digits);
    if shard >= held.len() {
        return refuse(number, b"Nobody", out);
    }
    held[shard] = is_held;
    Ok(())
}

// A shard is shut, if there is one of this number.
fn close_shard(
    house: &mut House,
    number: u64,
    digits: &[u8],
    out: &mut Vec<u8>,
) -> Result<(), AllocError>
    requires digits { list_all is_digit digits.now ≡ true }
    ensures done { OnOk result ((k : Setup) (s : scene.Scene) → StandsFor k house.old s →
        LineDone k number (spec.Closes (digits_value 10 digits.now)) s house.new out.old.items
        out.new.items) }
    ensures wanting { OnErr result ((k : Setup) (s : scene.Scene) → StandsFor k house.old s →
        LineWanting k (spec.Closes (digits_value 10 digits.now)) s house.new) }
{
    let shard = clipped_number(digits);
    if shard >= usize::from(house.shards()) {
        return refuse(number, b"Nobody", out);
    }
    do_event(house, number, Event::Close(shard as u8), out)
}

// A line comes from the client of a session.
fn ask_line(
    house: &mut House,
    number: u64,
    session: u8,
    text: &[u8],
    piece: &mut Vec<u8>,
    out: &mut Vec<u8>,
) -> Result<(), AllocError>
    ensures done { OnOk result ((k : Setup) (s : scene.Scene) → StandsFor k house.old s →
        LineDone k number (spec.Asks session (text.now
        ++ crlf)) s house.new out.old.items out.new.items) }
    ensures wanting { OnErr result ((k : Setup) (s : scene.Scene) → StandsFor k house.old s →
        LineWanting k (spec.Asks session (text.now ++ crlf)) s house.new) }
{
    put_line(text, piece)?;
    do_event(house, number, Event::Say(session, piece), out)
}

// Bytes in hexadecimal digits come from it, unless the digits can't be read or there are none.
fn ask_hex(
    alloc: Global,
    house: &mut House,
    number: u64,
    session: u8,
    digits: &[u8],
    out: &mut Vec<u8>,
) -> Result<(), AllocError>
    ensures done { OnOk result ((k : Setup) (s : scene.Scene) → StandsFor k house.old s →
        LineDone k number (brought (spec.Asks session) (decode_of digits.now)) s house.new
        out.old.items out.new.items) }
    ensures wanting { OnErr result ((k : Setup) (s : scene.Scene) → StandsFor k house.old s →
        LineWanting k (brought (spec.Asks session) (decode_of digits.now)) s house.new) }
{
    match bytes_of(alloc, digits)? {
        Some(bytes) => do_event(house, number, Event::Say(session, &bytes), out),
        None => refuse(number, b"Line", out),
    }
}

// The window of the mailbox with this word is printed.
fn show_tail(house: &House, number: u64, word: &[u8], out: &mut Vec<u8>) -> Result<(), AllocError>
    ensures { OnOk result ((k : Setup) (s : scene.Scene) → StandsFor k house.now s →
        LineDone k number (spec.Tail word.now) s house.now out.old.items out.new.items) }
{
    match house.tail(word, out) {
        Ok(()) => Ok(()),
        Err(HouseFault::Nobody) => refuse(number, b"Nobody", out),
        Err(HouseFault::Busy) => unreachable!(),
        // Nothing would be a mailbox that is named and isn't kept: of no house that a script has.
        Err(HouseFault::Nothing) => Err(AllocError),
        Err(HouseFault::NoMemory) => Err(AllocError),
    }
}

// Does what the line itself asks for.
fn do_line(
    house: &mut House,
    number: u64,
    line: &[u8],
    held: &mut Vec<bool>,
    piece: &mut Vec<u8>,
    out: &mut Vec<u8>,
) -> Result<(), AllocError>
    requires { length held.old.items ≤ 256 }
    ensures done { OnOk result ((k : Setup) (s : scene.Scene) → StandsFor k house.old s
        → length held.old.items ≡ k.config.shards →
        LineDone k number (asked line.now) s house.new out.old.items out.new.items) }
    ensures wanting { OnErr result ((k : Setup) (s : scene.Scene) → StandsFor k house.old s
        → LineWanting k (asked line.now) s house.new) }
    ensures held { OnOk result (held.new.items ≡ held_after held.old.items (asked line.now)) }
    ensures as_many { length held.new.items ≡ length held.old.items }
{
    match read_line(line) {
        ScriptLine::Says(connection, text) => hear_line(
            house, number, connection, text, piece, out,
        ),
        ScriptLine::SaysInHex(connection, digits) => {
            hear_hex(*out.allocator(), house, number, connection, digits, out)
        }
        ScriptLine::Vanishes(connection) => do_event(house, number, Event::Vanish(connection), out),
        ScriptLine::Enters(session, user) => do_event(
            house,
            number,
            Event::Enter(session, user),
            out,
        ),
        ScriptLine::Asks(session, text) => ask_line(house, number, session, text, piece, out),
        ScriptLine::AsksInHex(session, digits) => {
            ask_hex(*out.allocator(), house, number, session, digits, out)
        }
        ScriptLine::Leaves(session) => do_event(house, number, Event::Leave(session), out),
        ScriptLine::Hold(digits) => set_held(held, number, digits, true, out),
        ScriptLine::Free(digits) => set_held(held, number, digits, false, out),
        ScriptLine::Closes(digits) => close_shard(house, number, digits, out),
        ScriptLine::Tail(word) => show_tail(house, number, word, out),
        ScriptLine::Skip => Ok(()),
        ScriptLine::Bad => refuse(number, b"Line", out),
    }
}

// Does the line that was read, and settles.
fn play_line(house: &mut House, number: u64, room: &mut Room) -> Result<(), AllocError>
    requires { length room.old.held.items ≤ 256 }
    ensures played { OnOk result ((k : Setup) (s : scene.Scene) → StandsFor k house.old s
        → length room.old.held.items ≡ k.config.shards →
        LinePlayed k number room.old.held.items (asked (line_of room.old.line.items)) s house.new []
        room.new.out.items) }
    ensures wanting { OnErr result ((k : Setup) (s : scene.Scene) → StandsFor k house.old s
        → length room.old.held.items ≡ k.config.shards →
        PlayWanting k number room.old.held.items (asked (line_of room.old.line.items)) s
        house.new) }
    ensures held { OnOk result (room.new.held.items
        ≡ held_after room.old.held.items (asked (line_of room.old.line.items))) }
    ensures as_many { length room.new.held.items ≡ length room.old.held.items }
    ensures line { room.new.line.items ≡ room.old.line.items }
{
    room.out.clear();
    do_line(
        house,
        number,
        without_end(&room.line),
        &mut room.held,
        &mut room.piece,
        &mut room.out,
    )?;
    house.settle(&room.held, &mut room.out)
}

// Does the line that was read, settles, and has what tells of it.
fn tell_line(form: Form, house: &mut House, number: u64, room: &mut Room) -> Result<(), AllocError>
    requires { length room.old.held.items ≤ 256 }
    ensures told { OnOk result ((k : Setup) (s : scene.Scene) → StandsFor k house.old s
        → length room.old.held.items ≡ k.config.shards →
        LineTold form k number room.old.held.items (line_of room.old.line.items) s house.new
        room.new.out.items) }
    ensures wanting { OnErr result ((k : Setup) (s : scene.Scene) → StandsFor k house.old s
        → length room.old.held.items ≡ k.config.shards →
        TellWanting form k number room.old.held.items (asked (line_of room.old.line.items)) s
        house.new) }
    ensures held { OnOk result (room.new.held.items
        ≡ held_after room.old.held.items (asked (line_of room.old.line.items))) }
    ensures as_many { length room.new.held.items ≡ length room.old.held.items }
{
    play_line(house, number, room)?;
    render(
        form,
        number,
        without_end(&room.line),
        &mut room.spelled,
        &mut room.out,
    )
}

// At the start no shard is held.
fn none_held(alloc: Global, shards: u8) -> Result<Vec<bool>, AllocError>
    ensures { IfOk result (λ v. v.items ≡ replicate shards false) }
{
    let mut held = Vec::new(alloc);
    for _shard in 0..shards {
        held.push(false)?;
    }
    Ok(held)
}

// A turn of the run: the next line is read and played, and what tells of it is written. It gives the number of bytes written, or None
// where the input is at its end.
fn take_turn<R: BufRead, W: Sink>(
    form: Form,
    house: &mut House,
    number: u64,
    room: &mut Room,
    reader: &mut R,
    writer: &mut W,
) -> Result<Option<usize>, TurnFault>
    requires live { W.failed writer.old ≡ false }
    requires few { length room.old.held.items ≤ 256 }
    ensures tells { (k : Setup) (s : scene.Scene) (input : List ℕ) → StandsFor k house.old s →
        length room.old.held.items ≡ k.config.shards → R.remaining reader.old ≡ Some input →
        TurnTells form k number room.old.held.items s input house.new room.new.held.items
        (R.remaining reader.new) (W.taken writer.old)
        (W.taken writer.new) result }
    ensures live { OnOk result (W.failed writer.new ≡ false) }
    ensures as_many { length room.new.held.items ≡ length room.old.held.items }
    ensures failed { (sent : ℕ) → result ≡ Err (TurnFault.Write sent) → W.failed writer.new ≡ true }
    ensures short { (sent : ℕ) → result ≡ Err (TurnFault.Write sent) → sent < 2 ^ 64 }
{
    if !read_piece(reader, &mut room.line)? {
        return Ok(None);
    }
    let Ok(()) = tell_line(form, house, number, room) else {
        return Err(TurnFault::NoMemory);
    };
    match send(writer, &room.out) {
        Ok(()) => Ok(Some(room.out.len())),
        Err(fault) => Err(TurnFault::Write {
            sent: fault.sent as u128,
        }),
    }
}

/// Runs a script to the end of its input, as `drive` does, and tells what each line printed in this form. What `drive` promises of all that
/// was printed holds of the texts that are told, in either form.
///
/// `Read`: the reader failed, or 2^32 lines were read; `NoMemory`: memory was wanting, and the line at hand was played in part or not at all, or, in
/// JSON, it was played, and no memory was left to tell of it. What tells of the lines before was then written, and nothing of the line at hand.
/// `Write`: the writer failed; the first `sent` bytes of what tells of the lines were written, and not all that tells of the last one.
pub fn drive_as<R: BufRead, W: Sink>(
    form: Form,
    alloc: Global,
    house: &mut House,
    reader: &mut R,
    writer: &mut W,
) -> Result<(), RunFault>
    // The writer hasn't failed.
    requires { W.failed writer.old ≡ false }

    // In a new house, by a reader whose bytes are known: what tells of the lines was written, or by the result a beginning of it.
    ensures tells { (k : Setup) (input : List ℕ) → StandsFor k house.old (empty_scene k)
        → R.remaining reader.old ≡ Some input →
        RunTells form k (lines_of input) house.new result (W.taken writer.old)
        (W.taken writer.new) }
    ensures failed { (sent : ℕ) → result ≡ Err (RunFault.Write sent) → W.failed writer.new ≡ true }
{
    let Ok(held) = none_held(alloc, house.shards()) else {
        return Err(RunFault::NoMemory);
    };
    let mut room = Room {
        held,
        line: Vec::new(alloc),
        piece: Vec::new(alloc),
        out: Vec::new(alloc),
        spelled: Spelled::new(alloc),
    };
    let mut sent: u128 = 0;
    for done in 0..MOST_LINES {
        match take_turn(form, house, done + 1, &mut room, reader, writer) {
            Ok(Some(count)) => sent += count as u128,
            Ok(None) => return Ok(()),
            Err(TurnFault::Write { sent: some }) => return Err(RunFault::Write {
                sent: sent + some,
            }),
            Err(TurnFault::Read) => return Err(RunFault::Read),
            Err(TurnFault::NoMemory) => return Err(RunFault::NoMemory),
        }
    }
    Err(RunFault::Read)
}

/// Runs a script to the end of its input: each line is done, the house settles, and what the line printed is written at once. At the end
/// of the input nothing more is written.
///
/// Where the house was new, whatever the result: each recipient copy that was answered 250 in what was written stands in its mailbox's
/// history exactly once, under one UID, and the copies of each connection in the order in which it sent them; no copy was taken from a
/// shard after its close, which is when the end of each of its producers was taken; and what a session was shown since its SELECT is exactly
/// the mailbox's changes up to its cursor, in order.
///
/// The house that is left is what the lines made of it that were played: nothing else was done.
///
/// `Read`: the reader failed, or 2^32 lines were read; `NoMemory`: memory was wanting, and the line at hand was played in part or not at all: of the
/// events to which it leads the first happened, the last of them perhaps in part, and no others. What
/// the lines before printed was then written, and nothing of the line at hand. `Write`: the writer failed; the first `sent` bytes of what the
/// script prints were written, and not all that its last line printed.
pub fn drive<R: BufRead, W: Sink>(
    alloc: Global,
    house: &mut House,
    reader: &mut R,
    writer: &mut W,
) -> Result<(), RunFault>
    // The writer hasn't failed.
    requires { W.failed writer.old ≡ false }

    // In a new house, by a reader whose bytes are known: all that the script prints was written; the house stands for where its lines lead.
    ensures ok { OnOk result ((k : Setup) (input : List ℕ) → StandsFor k house.old (empty_scene k)
        → R.remaining reader.old ≡ Some input →
        Writes k (script_of input) house.new (W.taken writer.old) (W.taken writer.new)) }

    // In such a run, of what some of the first lines print the first `sent` bytes were written, not all; it stands for where they lead.
    ensures write { (sent : ℕ) → result ≡ Err (RunFault.Write sent) → (k : Setup) (input : List ℕ)
        → StandsFor k house.old (empty_scene k) →
        R.remaining reader.old ≡ Some input →
        WritesFirst k (script_of input) sent house.new (W.taken writer.old) (W.taken writer.new) }
    ensures failed { (sent : ℕ) → result ≡ Err (RunFault.Write sent) → W.failed writer.new ≡ true }

    // In such a run, all that some of the first lines print was written, and nothing of the next, played in part or not at all.
    ensures no_memory { result ≡ Err RunFault.NoMemory → (k : Setup) (input : List ℕ)
        → StandsFor k house.old (empty_scene k) →
        R.remaining reader.old ≡ Some input →
        WritesBeginning k (script_of input) (IsLeftWanting k house.new) (W.taken writer.old)
        (W.taken writer.new) }

    // In such a run, whatever the result, what some of the first lines print delivers exactly once; a beginning of it was written.
    ensures once { (k : Setup) (input : List ℕ) → StandsFor k house.old (empty_scene k)
        → R.remaining reader.old ≡ Some input →
        WroteOnce k (script_of input) (W.taken writer.old) (W.taken writer.new) }

    // In such a run, all that some of the first lines print was written, and nothing was done since.
    ensures read { result ≡ Err RunFault.Read → (k : Setup) (input : List ℕ)
        → StandsFor k house.old (empty_scene k) →
        R.remaining reader.old ≡ Some input →
        WritesBeginning k (script_of input) (IsLeft k house.new) (W.taken writer.old)
        (W.taken writer.new) }
{
    drive_as(Form::Text, alloc, house, reader, writer)
}
