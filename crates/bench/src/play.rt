//! Scripts that are played to a house: what they write, and what processor's time that takes.

ghost use Rattle.std.specs.Prelude.{◌<◌, length};

use house::House;
use line_io::Watched;
use script::{RunFault, drive};
use settings::{Config, ConfigFault};
use std::alloc::Global;
use std::io;
use std::io::{Error, ErrorKind};
use std::time::{CpuClock, Duration};

/// The most messages that a mailbox may hold.
const MESSAGES: usize = 32_768;

/// The most changes that it may keep: two for each message.
const CHANGES: usize = 65_536;

/// More entries than a message has recipients: no copy is refused.
const DEPTH: usize = 128;

/// A house in which each of these users has a mailbox, with as much room as one may have.
/// `InvalidInput` where a name is no user's, and `OutOfMemory` where memory is refused.
pub fn large_house(alloc: Global, users: &[&[u8]]) -> io::Result<House>
    requires { 0 < length users.now }
{
    let mut config = Config::new(alloc, users)?;
    config.messages = MESSAGES;
    config.ring = CHANGES;
    config.depth = DEPTH;
    match House::new(alloc, &config) {
        Ok(house) => Ok(house),
        Err(ConfigFault::NoMemory) => Err(Error::from(ErrorKind::OutOfMemory)),
        Err(_) => Err(Error::from(ErrorKind::InvalidInput)),
    }
}

/// Plays a script to the house, writes to `output` in place of what stood there, and gives the time of the thread that it took.
/// `OutOfMemory` where memory is refused, the clock's error where there is none, and `Other` where the script isn't played for another reason.
pub fn play<T: CpuClock>(
    rt: &T,
    house: &mut House,
    script: &[u8],
    output: &mut Vec<u8>,
) -> io::Result<Duration> {
    output.clear();
    let alloc = *output.allocator();
    let mut reader = script;
    let start = rt.thread_cpu_time()?;
    let ended = drive(alloc, house, &mut reader, &mut Watched::new(output));
    let end = rt.thread_cpu_time()?;
    match ended {
        Ok(()) => Ok(end.saturating_sub(start)),
        Err(RunFault::NoMemory) => Err(Error::from(ErrorKind::OutOfMemory)),
        Err(_) => Err(Error::from(ErrorKind::Other)),
    }
}
