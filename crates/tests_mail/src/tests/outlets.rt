//! What is said through outlets: a vector keeps all of it, and an outgoing one sends the first bytes of it, to a sink that takes few at a time and fails
//! at any of them, from rows of several lengths.

ghost use Rattle.std.specs.Prelude.{◌≡◌, IsSome};

use line_io::{Buffer, Outgoing, Outlet, Sink};
use std::alloc::{AllocError, Global};

// What is said, piece by piece. One is longer than the longest row.
const PIECES: &[&[u8]] = &[
    b"* 1",
    b"",
    b" EXISTS\r\n",
    b"x",
    b"twenty bytes at once",
    b"\r\n",
];

// All of it, and what is said behind it.
const WHOLE: &[u8] = b"* 1 EXISTS\r\nxtwenty bytes at once\r\n* BYE\r\n";

// Takes at most three bytes an offer, and fails once it has taken so many. Behind that it would take any, so that one sees whether it is offered more.
#[derive(Drop)]
struct Short {
    taken: Vec<u8>,
    most: usize,
    has_failed: bool,
}

impl Sink for Short {
    ghost failed = { λ s. s.has_failed };

    fn offer(&mut self, bytes: &[u8]) -> Option<usize> {
        let left = self.most.saturating_sub(self.taken.len());
        let count = left.min(3).min(bytes.len());
        if count == 0 || self.taken.extend_from_slice(&bytes[..count]).is_err() {
            self.most = usize::MAX;
            self.has_failed = true;
            return None;
        }
        Some(count)
    }
}

// Takes whatever it is offered, and notes how many bytes that were.
#[derive(Drop)]
struct Noting {
    offers: Vec<usize>,
    has_failed: bool,
}

impl Sink for Noting {
    ghost failed = { λ s. s.has_failed };

    fn offer(&mut self, bytes: &[u8]) -> Option<usize> {
        if self.offers.push(bytes.len()).is_err() {
            self.has_failed = true;
            return None;
        }
        Some(bytes.len())
    }
}

fn say<O: Outlet>(pieces: &[&[u8]], out: &mut O) -> Result<(), AllocError>
    ensures { O.lot out.new ≡ O.lot out.old }
{
    for piece in pieces {
        out.hold(piece.len())?;
        out.put(piece);
    }
    Ok(())
}

// Says a line that is written into the outlet's vector.
fn say_lent<O: Outlet>(line: &[u8], out: &mut O) -> Result<(), AllocError>
    ensures { O.lot out.new ≡ O.lot out.old }
{
    let mut part = out.lend();
    let written = part.extend_from_slice(line);
    out.take_back(part);
    written?;
    Ok(())
}

fn say_whole<O: Outlet>(out: &mut O) -> Result<(), AllocError>
    ensures { O.lot out.new ≡ O.lot out.old }
{
    say(PIECES, out)?;
    say_lent(b"* BYE\r\n", out)
}

// Says these pieces, and flushes: whether all was sent.
fn say_and_flush<W: Sink + Drop>(
    pieces: &[&[u8]],
    out: &mut Outgoing<W>,
) -> Result<bool, AllocError>
    requires { IsSome out.old.buffer }
    ensures { IsSome out.new.buffer }
{
    say(pieces, out)?;
    Ok(out.flush().is_ok())
}

// The same of all that is said.
fn say_whole_and_flush<W: Sink + Drop>(out: &mut Outgoing<W>) -> Result<bool, AllocError>
    requires { IsSome out.old.buffer }
    ensures { IsSome out.new.buffer }
{
    say_whole(out)?;
    Ok(out.flush().is_ok())
}

// Flushes again; where not all was sent, once more was said.
fn flush_again<W: Sink + Drop>(told: bool, out: &mut Outgoing<W>) -> Result<bool, AllocError>
    requires { IsSome out.old.buffer }
{
    if told {
        return Ok(out.flush().is_ok());
    }
    say_whole_and_flush(out)
}

// Whether a sink that fails once it has taken `most` bytes has just these of what was said, and flushing tells whether they are all.
fn is_cut(alloc: Global, length: usize, most: usize) -> Result<bool, AllocError> {
    let row = vec![in alloc; 0; length]?;
    let sink = Short {
        taken: Vec::new(alloc),
        most,
        has_failed: false,
    };
    let mut out = Outgoing::new(alloc, Buffer::new(sink, row));
    let told = say_whole_and_flush(&mut out)?;
    let same = flush_again(told, &mut out)? == told;
    let Some(sink) = out.into_sink() else {
        return Ok(false);
    };
    let few = most.min(WHOLE.len());
    Ok(same && told == (WHOLE.len() <= most) && sink.taken.as_slice() == &WHOLE[..few])
}

// Whether a buffer with a row of this length offers its sink these numbers of bytes, where pieces of 2, 2, 1, 10 and 0 bytes are said.
fn offers(alloc: Global, length: usize, want: &[usize]) -> Result<bool, AllocError> {
    let row = vec![in alloc; 0; length]?;
    let sink = Noting {
        offers: Vec::new(alloc),
        has_failed: false,
    };
    let mut out = Outgoing::new(alloc, Buffer::new(sink, row));
    let pieces: &[&[u8]] = &[b"ab", b"cd", b"e", b"0123456789", b""];
    let told = say_and_flush(pieces, &mut out)?;
    let Some(sink) = out.into_sink() else {
        return Ok(false);
    };
    Ok(told && sink.offers.as_slice() == want)
}

// The same of a buffer that has such a row in place of one of seven bytes, which is given back.
fn offers_behind_a_trade(alloc: Global, length: usize, want: &[usize]) -> Result<bool, AllocError> {
    let sink = Noting {
        offers: Vec::new(alloc),
        has_failed: false,
    };
    let mut out = Outgoing::new(alloc, Buffer::new(sink, vec![in alloc; 0; 7]?));
    let first = out.trade(vec![in alloc; 0; length]?);
    let pieces: &[&[u8]] = &[b"ab", b"cd", b"e", b"0123456789", b""];
    let told = say_and_flush(pieces, &mut out)?;
    let Some(sink) = out.into_sink() else {
        return Ok(false);
    };
    Ok(first.len() == 7 && told && sink.offers.as_slice() == want)
}

#[test]
fn a_vector_keeps_all_that_is_said(rt: HostRuntime) -> Result<(), AllocError> {
    let mut out = Vec::new(rt.alloc());
    say_whole(&mut out)?;
    assert_eq!(rt; out.as_slice(), WHOLE);
    Ok(())
}

#[test]
fn a_sink_has_the_first_bytes_of_what_is_said(rt: HostRuntime) -> Result<(), AllocError> {
    for length in 0..13_usize {
        for most in 0..45_usize {
            assert!(rt; is_cut(rt.alloc(), length, most)?);
        }
    }
    Ok(())
}

#[test]
fn a_piece_that_is_longer_than_the_row_goes_as_it_is(rt: HostRuntime) -> Result<(), AllocError> {
    assert!(rt; offers(rt.alloc(), 0, &[2, 2, 1, 10])?);
    assert!(rt; offers(rt.alloc(), 4, &[4, 1, 10])?);
    assert!(rt; offers(rt.alloc(), 10, &[5, 10])?);
    assert!(rt; offers(rt.alloc(), 16, &[15])?);
    Ok(())
}

#[test]
fn a_row_is_traded(rt: HostRuntime) -> Result<(), AllocError> {
    assert!(rt; offers_behind_a_trade(rt.alloc(), 0, &[2, 2, 1, 10])?);
    assert!(rt; offers_behind_a_trade(rt.alloc(), 4, &[4, 1, 10])?);
    assert!(rt; offers_behind_a_trade(rt.alloc(), 16, &[15])?);
    Ok(())
}
