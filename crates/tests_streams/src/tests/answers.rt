//! An answer that is longer than what waits to be sent leaves as it is made, piece by piece; where the output fails, the client has the first bytes of it.

ghost use Rattle.std.specs.Prelude.{◌≡◌};

use super::houses::{TestHouse, open_house};
use super::imap::{SMALL, deliver, nobody, open};
use super::wires::{Tally, Wire};
use delivery_token::Text;
use house_history::{Naming, Opened};
use imap_session::After;
use imap_stream::{Visit, VisitFault};
use std::alloc::{AllocError, Global};
use std::marker::Brand;
use std::sync::atomic::AtomicBool;
use std::sync::{Mutex, Wait};

// At most so many bytes are sent at once, but for a text that is longer.
const ROW: usize = 16 * 1024;

// So many times the message is asked for in one line.
const TIMES: usize = 40;

// What the client is told before it asks.
const OPENING: &[u8] = b"* PREAUTH IMAP4rev2 server ready\r\n\
      * FLAGS (\\Answered \\Flagged \\Deleted \\Seen \\Draft)\r\n\
      * 1 EXISTS\r\n\
      * OK [UIDVALIDITY 7] UIDs valid\r\n\
      * OK [UIDNEXT 2] Predicted next UID\r\n\
      * OK [PERMANENTFLAGS (\\Answered \\Flagged \\Deleted \\Seen \\Draft)] Flags kept\r\n\
      * LIST () \"/\" INBOX\r\n\
      a1 OK [READ-WRITE] SELECT completed\r\n";

// A message of 2,828 bytes.
fn body(alloc: Global) -> Result<Vec<u8>, AllocError> {
    let mut bytes = Vec::from_slice(alloc, b"Return-Path: <s@a.example>\r\n")?;
    for _ in 0..100 {
        bytes.extend_from_slice(b"twenty-eight bytes of text\r\n")?;
    }
    Ok(bytes)
}

// The line that asks for it.
fn question(alloc: Global) -> Result<Vec<u8>, AllocError> {
    let mut line = Vec::from_slice(alloc, b"a2 FETCH 1 (BODY.PEEK[]")?;
    for _ in 1..TIMES {
        line.extend_from_slice(b" BODY.PEEK[]")?;
    }
    line.extend_from_slice(b")\r\n")?;
    Ok(line)
}

// All that the client is told.
fn wanted(alloc: Global) -> Result<Vec<u8>, AllocError> {
    let body = body(alloc)?;
    let mut told = Vec::from_slice(alloc, OPENING)?;
    told.extend_from_slice(b"* 1 FETCH (BODY[] {2828}\r\n")?;
    told.extend_from_slice(&body)?;
    for _ in 1..TIMES {
        told.extend_from_slice(b" BODY[] {2828}\r\n")?;
        told.extend_from_slice(&body)?;
    }
    told.extend_from_slice(b")\r\na2 OK FETCH completed\r\n")?;
    Ok(told)
}

// What becomes of the question behind a SELECT.
fn ask<'x, B: Naming, R: Wait>(
    rt: &'x R,
    alloc: Global,
    house: &'x TestHouse<B>,
    visit: &mut Visit<'x, B, R, Tally, Wire<'x, R>>,
    question: &[u8],
) -> Result<After, VisitFault> {
    let idles = AtomicBool::new(false);
    let _ = visit.hear(
        alloc,
        &mut nobody(rt, house),
        b"a1 SELECT INBOX\r\n",
        &idles,
    );
    let answered = visit.hear(alloc, &mut nobody(rt, house), question, &idles);
    let _ = visit.leave();
    answered
}

// The same over an output that takes so many sends; whether it went well, and what the client was told. None where it couldn't be greeted.
fn told_by<B: Naming, R: Wait>(
    rt: &R,
    alloc: Global,
    house: &TestHouse<B>,
    question: &[u8],
    sends: usize,
) -> Option<(bool, Vec<u8>)> {
    let told = Mutex::new(Vec::new(alloc));
    let tally = Tally::new();
    let wire = Wire::new(rt, &told, sends);
    let answered = match open(rt, alloc, house, &tally, None, wire) {
        Some(mut visit) => Some(ask(rt, alloc, house, &mut visit, question)),
        None => None,
    };
    Some((answered? == Ok(After::Go), told.into_inner()))
}

// Whether each send more brings the client some bytes more of the answer, at most a row's, up to the last.
fn comes_by_pieces<B: Naming, R: Wait>(
    rt: &R,
    alloc: Global,
    house: &TestHouse<B>,
) -> Result<bool, AllocError> {
    let (question, wanted) = (question(alloc)?, wanted(alloc)?);
    let mut before = 0;
    for sends in 2..20 {
        let Some((is_whole, told)) = told_by(rt, alloc, house, &question, sends) else {
            return Ok(false);
        };
        let count = told.len();
        if !wanted.starts_with(&told) || is_whole != (count == wanted.len()) {
            return Ok(false);
        }
        if count - before.min(count) > ROW || (count <= before && !is_whole) {
            return Ok(false);
        }
        before = count;
    }
    Ok(before == wanted.len())
}

fn asked_in<B: Naming, R: Wait>(rt: &R, alloc: Global, history: Opened) -> Result<bool, AllocError>
    requires { history ≡ B.book }
{
    let house = open_house::<B>(alloc, history, 1, SMALL)?;
    let text = Text::new(body(alloc)?)?;
    if !deliver(rt, &house, text) {
        return Err(AllocError);
    }
    comes_by_pieces(rt, alloc, &house)
}

#[test]
fn an_answer_leaves_as_it_is_made(rt: HostRuntime) -> Result<(), AllocError> {
    let comes = asked_in::<Brand, HostRuntime>(&rt, rt.alloc(), Opened::new())?;
    assert!(rt; comes);
    Ok(())
}
