//! The mail in the house on one thread: each message comes whole, and all settles before the next.

use crate::mail::{config_of, opening, push_message};
use house::{Event, House, HouseFault};
use settings::ConfigFault;
use std::alloc::{AllocError, Global};
use std::io::{self, Error, ErrorKind};

/// What is printed of each copy that is delivered.
const DELIVERED: &[u8] = b"L1 250 2.1.5 Delivered\n";

/// What comes on a connection: how it begins, and so many messages.
pub fn pieces(alloc: Global, messages: usize) -> Result<Vec<Vec<u8>>, AllocError> {
    let mut pieces = Vec::new(alloc);
    pieces.push(opening(alloc)?)?;
    for number in 0..messages {
        let mut bytes = Vec::new(alloc);
        push_message(number, &mut bytes)?;
        pieces.push(bytes)?;
    }
    Ok(pieces)
}

// Bytes come on connection 1, and all settles.
fn take(house: &mut House, bytes: &[u8], out: &mut Vec<u8>) -> io::Result<()> {
    match house.step(Event::Bytes(1, bytes), out) {
        Ok(()) => {}
        Err(HouseFault::NoMemory) => return Err(Error::from(ErrorKind::OutOfMemory)),
        Err(_) => return Err(Error::from(ErrorKind::Other)),
    }
    house.settle(&[], out)?;
    Ok(())
}

// All of these come, one after another.
fn take_all(house: &mut House, pieces: &[Vec<u8>], out: &mut Vec<u8>) -> io::Result<()> {
    for bytes in pieces {
        take(house, bytes, out)?;
    }
    Ok(())
}

/// How many copies are delivered in a new house with one shard, where these pieces come on a connection.
///
/// Errors: `OutOfMemory` where memory is refused, `InvalidInput` where the settings are wrong, `Other` where a piece isn't taken.
pub fn deliver_alone(alloc: Global, pieces: &[Vec<u8>]) -> io::Result<usize> {
    let config = config_of(alloc, 1)?;
    let mut house = match House::new(alloc, &config) {
        Ok(house) => house,
        Err(ConfigFault::NoMemory) => return Err(Error::from(ErrorKind::OutOfMemory)),
        Err(_) => return Err(Error::from(ErrorKind::InvalidInput)),
    };
    let mut out = Vec::new(alloc);
    take_all(&mut house, pieces, &mut out)?;
    Ok(lines_like(&out, DELIVERED))
}

// How many of these lines are this one.
fn lines_like(text: &[u8], wanted: &[u8]) -> usize {
    let mut count: usize = 0;
    for line in text.split_inclusive(|b| *b == b'\n') {
        if line == wanted {
            count = count.saturating_add(1);
        }
    }
    count
}
