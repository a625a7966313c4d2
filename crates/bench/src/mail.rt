//! Mail as it comes to a house on one connection: messages of a size, for one recipient or for many. Each comes in one piece, and the house
//! settles behind it. So what is measured is the way of a copy from its bytes to its mailbox, and no script's lines.

use crate::sample::data;
use house::{Event, House, HouseFault};
use std::alloc::{AllocError, Global};
use std::io;
use std::io::{Error, ErrorKind};
use std::time::{CpuClock, Duration};

/// A message: for how many recipients it comes, and how many lines of 72 bytes it has.
#[derive(Clone, Copy)]
pub struct Mail {
    pub recipients: usize,
    pub lines: usize,
}

// Where mail comes in.
const CONNECTION: u8 = 1;

// A recipient is named, of these users the one whose turn it is.
fn push_recipient(users: &[&[u8]], turn: usize, wire: &mut Vec<u8>) -> Result<(), AllocError> {
    let Some(user) = users.get(turn % users.len().max(1)) else {
        return Ok(());
    };
    wire.extend_from_slice(b"RCPT TO:<")?;
    wire.extend_from_slice(user)?;
    wire.extend_from_slice(b"@example.org>\r\n")
}

/// The commands and the data of a message for these users by turns, of whom each may be named more than once.
pub fn message(alloc: Global, users: &[&[u8]], mail: Mail) -> Result<Vec<u8>, AllocError> {
    let mut wire = Vec::from_slice(alloc, b"MAIL FROM:<s@a.example>\r\n")?;
    for turn in 0..mail.recipients {
        push_recipient(users, turn, &mut wire)?;
    }
    wire.extend_from_slice(b"DATA\r\n")?;
    wire.extend_from_slice(&data(alloc, mail.lines)?)?;
    Ok(wire)
}

// Bytes come for the house's connection, and the house settles.
fn come(house: &mut House, bytes: &[u8], output: &mut Vec<u8>) -> Result<(), HouseFault> {
    house.step(Event::Bytes(CONNECTION, bytes), output)?;
    house.settle(&[], output)?;
    Ok(())
}

// The same message comes so many times.
fn come_often(
    house: &mut House,
    wire: &[u8],
    times: usize,
    output: &mut Vec<u8>,
) -> Result<(), HouseFault> {
    for _ in 0..times {
        come(house, wire, output)?;
    }
    Ok(())
}

/// Hands a message to the house so many times, writes its replies to `output` in place of what stood there, and gives the time of the
/// thread that it took. An error where memory is refused, or where there is no such clock.
pub fn deliver<T: CpuClock>(
    rt: &T,
    house: &mut House,
    wire: &[u8],
    times: usize,
    output: &mut Vec<u8>,
) -> io::Result<Duration> {
    output.clear();
    if come(house, b"LHLO c.example\r\n", output).is_err() {
        return Err(Error::from(ErrorKind::OutOfMemory));
    }
    let start = rt.thread_cpu_time()?;
    let came = come_often(house, wire, times, output);
    let end = rt.thread_cpu_time()?;
    match came {
        Ok(()) => Ok(end.saturating_sub(start)),
        Err(_) => Err(Error::from(ErrorKind::OutOfMemory)),
    }
}
