//! The settings of a house, and what may be wrong with them. No house is made here, and no command line is read.

ghost use Rattle.std.specs.Prelude.{◌≡◌, ◌≢◌, ◌<◌, ◌≤◌, IfOk, length, map, true, false};
ghost use Rattle.envelope.specs.Names.{texts};
ghost use Rattle.settings.specs.Settings.{IsDefault, IsFrom, IsInRange, fault_named, most_sessions};

use crate::numbers;
use envelope::DirectoryFault;
use std::alloc::{AllocError, Global};
use thiserror::Error;

/// The settings of a house.
#[derive(Debug, Drop)]
pub struct Config {
    /// The name that the house gives itself in greetings: 1 to 255 letters, digits, `-` and `.`.
    pub host: Vec<u8>,
    /// The domain that mail comes for, of the same form.
    pub domain: Vec<u8>,
    /// The mailboxes, 1 to 64: `user`, or `user/folder` after its user's word.
    pub mailboxes: Vec<Vec<u8>>,
    /// So many shards keep the mailboxes, 1 to 8.
    pub shards: u8,
    /// So many entries have room in a shard's lane, 1 to 1024.
    pub depth: usize,
    /// So many of its last changes each mailbox keeps, 16 to 65536, and at least two for each message.
    pub ring: usize,
    /// So many of its last changes each mailbox keeps at most, where a client is still to be shown them, up to 65536; 0 where it
    /// keeps no more than `ring`, else not less than that.
    pub ring_max: usize,
    /// So many messages each mailbox may hold, 1 to 32768.
    pub messages: usize,
    /// The most bytes of a message's data, 1 to 16777216.
    pub max_message: usize,
    /// What each mailbox tells as its UIDVALIDITY, 1 to 4294967295 (RFC 9051, 2.3.1.1).
    pub uidvalidity: u32,
    /// The UID of a mailbox's first message, 1 to 4294967294.
    pub first_uid: u32,
    /// So many sessions of one user may run as threads, 1 to 4, and to 16 in the compatible profile. A house that is played step by
    /// step doesn't look at it.
    pub sessions: u8,
    /// So many LMTP connections may be served at a time, 1 to 8. Only a server looks at it, and at the ports.
    pub workers: u8,
    /// The port that mail comes to, 1 to 65535: not 25, where others expect SMTP (RFC 2033, 5), nor one of the users'. 0 where the
    /// system is to choose a free one.
    pub lmtp_port: u16,
    /// The port of the first user's sessions, 1024 to 65472; the others' follow, in the order of the users. 0 where the system is
    /// to choose a free one for each user.
    pub imap_port: u16,
    /// The most bytes that the texts of all messages may have together; None where there is no limit. Only a server looks at it.
    pub memory: Option<u64>,
    /// Sessions have the compatible profile: a client logs in first, and is offered what fronts and clients of IMAP4rev1 want besides.
    pub compatible: bool,
}

/// What is wrong with the settings. The first that holds is the fault; want of memory comes where memory was refused.
#[derive(Clone, Copy, Debug, PartialEq, Eq, Error)]
pub enum ConfigFault {
    /// There are more than 64 mailboxes.
    #[error("TooMany")]
    TooMany,
    /// The host, the domain or a mailbox is spelled wrong, or a folder's user has no word before it.
    #[error("BadName")]
    BadName,
    /// A word names the mailbox of an earlier one, in upper or lower case.
    #[error("Twice")]
    Twice,
    /// The ring keeps fewer than two changes for each message, or may keep at most fewer than it keeps.
    #[error("Ring")]
    Ring,
    /// Mail is to come to port 25, or to a port of a user's sessions.
    #[error("Ports")]
    Ports,
    /// Memory was refused.
    #[error("NoMemory")]
    NoMemory,
}

impl From<AllocError> for ConfigFault {
    ghost use Rattle.settings.specs.declared.config.ConfigFault.{ConfigFault};

    ghost from_gives = { λ _ fault. fault ≡ ConfigFault.NoMemory };

    fn from(_error: AllocError) -> ConfigFault {
        ConfigFault::NoMemory
    }
}

impl From<DirectoryFault> for ConfigFault {
    ghost from_gives = { λ named fault. fault ≡ fault_named named };

    fn from(fault: DirectoryFault) -> ConfigFault {
        match fault {
            DirectoryFault::TooMany => ConfigFault::TooMany,
            DirectoryFault::BadName => ConfigFault::BadName,
            DirectoryFault::Twice => ConfigFault::Twice,
            DirectoryFault::NoMemory => ConfigFault::NoMemory,
        }
    }
}

/// The name that a house greets with, where none is given.
pub const HOST: &str = "mx.example.org";

/// The domain that mail comes for, where none is given.
pub const DOMAIN: &str = "example.org";

/// Bytes of their own for each of the words.
fn own_words(alloc: Global, words: &[&[u8]]) -> Result<Vec<Vec<u8>>, AllocError>
    ensures { IfOk result (λ own. map (λ w. w.items) own.items ≡ texts words.now) }
{
    let mut own = Vec::new(alloc);
    for word in words {
        own.push(Vec::from_slice(alloc, word)?)?;
    }
    Ok(own)
}

impl Config {
    /// The settings that stand where none are given, with these mailboxes. An error where memory is refused; nothing is looked at
    /// here, neither a name nor a range.
    pub fn new(alloc: Global, mailboxes: &[&[u8]]) -> Result<Config, AllocError>
        ensures { IfOk result (λ config. IsDefault config (texts mailboxes.now)) }
    {
        Ok(Config {
            host: Vec::from_slice(alloc, HOST.as_bytes())?,
            domain: Vec::from_slice(alloc, DOMAIN.as_bytes())?,
            mailboxes: own_words(alloc, mailboxes)?,
            shards: numbers::SHARDS.default as u8,
            depth: numbers::DEPTH.default as usize,
            ring: numbers::RING.default as usize,
            ring_max: numbers::RING_MAX.default as usize,
            messages: numbers::MESSAGES.default as usize,
            max_message: numbers::MAX_MESSAGE.default as usize,
            uidvalidity: numbers::UIDVALIDITY.default as u32,
            first_uid: numbers::FIRST_UID.default as u32,
            sessions: numbers::SESSIONS.default as u8,
            workers: numbers::WORKERS.default as u8,
            lmtp_port: numbers::LMTP_PORT.default as u16,
            imap_port: numbers::IMAP_PORT.default as u16,
            memory: None,
            compatible: false,
        })
    }

    // Whether there is a mailbox, and a house may be made of so many parts.
    fn are_parts_in_range(&self) -> bool
        ensures mailboxes { result ≡ true → 0 < length self.now.mailboxes.items }
        ensures shards { result ≡ true → IsFrom 1 8 self.now.shards }
        ensures depth { result ≡ true → IsFrom 1 1024 self.now.depth }
        ensures sessions { result ≡ true →
            IsFrom 1 (most_sessions self.now.compatible) self.now.sessions }
        ensures beyond { result ≡ false → IsInRange self.now → ⊥ }
    {
        if self.mailboxes.is_empty() {
            return false;
        }
        if !numbers::SHARDS.allows(u64::from(self.shards)) {
            return false;
        }
        if !numbers::DEPTH.allows(self.depth as u64) {
            return false;
        }
        if !numbers::sessions_of(self.compatible).allows(u64::from(self.sessions)) {
            return false;
        }
        true
    }

    // Whether a mailbox may hold so much, and a message have.
    fn are_rooms_in_range(&self) -> bool
        ensures ring { result ≡ true → IsFrom 16 65536 self.now.ring }
        ensures ring_max { result ≡ true → IsFrom 0 65536 self.now.ring_max }
        ensures messages { result ≡ true → IsFrom 1 32768 self.now.messages }
        ensures max_message { result ≡ true → IsFrom 1 16777216 self.now.max_message }
        ensures beyond { result ≡ false → IsInRange self.now → ⊥ }
    {
        if !numbers::RING.allows(self.ring as u64) {
            return false;
        }
        if !numbers::RING_MAX.allows(self.ring_max as u64) {
            return false;
        }
        if !numbers::MESSAGES.allows(self.messages as u64) {
            return false;
        }
        if !numbers::MAX_MESSAGE.allows(self.max_message as u64) {
            return false;
        }
        true
    }

    // Whether a mailbox may begin with these UIDs, and a server listen there.
    fn are_names_in_range(&self) -> bool
        ensures uidvalidity { result ≡ true → IsFrom 1 4294967295 self.now.uidvalidity }
        ensures first_uid { result ≡ true → IsFrom 1 4294967294 self.now.first_uid }
        ensures workers { result ≡ true → IsFrom 1 8 self.now.workers }
        ensures lmtp_port { result ≡ true → IsFrom 0 65535 self.now.lmtp_port }
        ensures imap_port { result ≡ true → IsFrom 0 65472 self.now.imap_port }
        ensures imap_given { result ≡ true → self.now.imap_port ≢ 0 → 1024 ≤ self.now.imap_port }
        ensures beyond { result ≡ false → IsInRange self.now → ⊥ }
    {
        if !numbers::UIDVALIDITY.allows(u64::from(self.uidvalidity)) {
            return false;
        }
        if !numbers::FIRST_UID.allows(u64::from(self.first_uid)) {
            return false;
        }
        if !numbers::WORKERS.allows(u64::from(self.workers)) {
            return false;
        }
        if !numbers::LMTP_PORT.allows(u64::from(self.lmtp_port)) {
            return false;
        }
        if !numbers::IMAP_PORT.allows(u64::from(self.imap_port)) {
            return false;
        }
        if self.imap_port == 0 {
            return true;
        }
        if u64::from(self.imap_port) < numbers::LEAST_IMAP_PORT {
            return false;
        }
        true
    }

    /// Whether there is a mailbox, and each number is in its range: what `House::new`, and whoever else makes a house, asks of
    /// its settings. Names are not looked at, nor how the ring's and the ports' stand to others; these are faults that `House::new` tells.
    pub fn is_in_range(&self) -> bool
        ensures within { result ≡ true → IsInRange self.now }
        ensures beyond { result ≡ false → IsInRange self.now → ⊥ }
    {
        if !self.are_parts_in_range() {
            return false;
        }
        if !self.are_rooms_in_range() {
            return false;
        }
        if !self.are_names_in_range() {
            return false;
        }
        true
    }
}
