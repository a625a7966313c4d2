//! The mail that is delivered: as many messages as copies, each for one of four users, and the house that it comes to.

ghost use Rattle.std.specs.Prelude.{IfOk};
ghost use Rattle.settings.specs.Settings.{IsFrom, IsInRange};

use settings::Config;
use std::alloc::{AllocError, Global};

/// The bytes of a message's data.
pub const DATA: usize = LINES * LINE.len();

/// How many lines a message has.
const LINES: usize = 14;

const LINE: &[u8] = b"Dear all, the minutes of last week's meeting are below; please send me\r\n";

/// Who has a mailbox. Where there are four shards each stands in its own.
const USERS: [&[u8]; 4] = [b"alice", b"bob", b"carol", b"dan"];

/// The most messages that a mailbox may hold.
const MESSAGES: usize = 32_768;

/// The most changes that it may keep: two for each message.
const CHANGES: usize = 65_536;

/// The settings of a house with so many shards, in which each mailbox has as much room as one may have.
pub fn config_of(alloc: Global, shards: u8) -> Result<Config, AllocError>
    requires { IsFrom 1 8 shards }
    ensures { IfOk result IsInRange }
{
    let mut config = Config::new(alloc, &USERS)?;
    config.shards = shards;
    config.messages = MESSAGES;
    config.ring = CHANGES;
    Ok(config)
}

/// How a connection begins.
pub fn opening(alloc: Global) -> Result<Vec<u8>, AllocError> {
    Vec::from_slice(alloc, b"LHLO c.example\r\n")
}

/// Adds a message for the user whose turn it is at this number.
pub fn push_message(number: usize, bytes: &mut Vec<u8>) -> Result<(), AllocError> {
    bytes.extend_from_slice(b"MAIL FROM:<s@a.example>\r\nRCPT TO:<")?;
    bytes.extend_from_slice(USERS[number % 4])?;
    bytes.extend_from_slice(b"@example.org>\r\nDATA\r\n")?;
    for _ in 0..LINES {
        bytes.extend_from_slice(LINE)?;
    }
    bytes.extend_from_slice(b".\r\n")
}
