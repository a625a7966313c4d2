//! What passes between the connections and the mailboxes: a copy with its key, and the verdict on it.
//! A worker notes the verdicts that it heard in a log, and of the copies of a message what was heard
//! of each. No lane, no mailbox and no connection.
#![tactic(auto)]

mod laws;
mod log;
mod verdicts;

ghost use Rattle.std.specs.Prelude.{◌≡◌, ◌↔◌, true, length, IfOk, IsTrue};
ghost use Rattle.std.specs.Arc.{arc_value};
ghost use Rattle.budget.specs.Charging.{IsCharged};
ghost use Rattle.delivery_token.specs.Keys.{Precedes};

use budget::{Budget, Charge};
use change_ring::Flags;
pub use laws::what_was_heard_is_kept;
pub use log::{Noted, WorkerLog};
use mail_date::{Stamp, received};
use std::alloc::AllocError;
use std::marker::Model;
use std::sync::Arc;
pub use verdicts::{NextCopy, Submitted, Verdicts};

/// So many verdicts have room on a producer's way back: more than a message has copies.
pub const REPLY_ROOM: usize = 128;

/// Which copy it is: the connection's seat and serial, its message, and the position of the recipient
/// among those accepted. Keys of one seat stand in the order of the fields, which is that of their sizes too: so a key takes 16 bytes.
#[derive(Clone, Copy, Debug, PartialEq, Eq, PartialOrd, Ord)]
pub struct CopyKey {
    /// The serial that the connection or the session was given.
    pub serial: u64,
    /// The number of its message there.
    pub message: u32,
    /// The number of the seat that puts the copy.
    pub seat: u8,
    /// The position of the recipient among those accepted, from 0.
    pub recipient: u8,
}

/// Whether the keys are of one seat, and `a` comes before `b` by the derived order.
pub fn precedes(a: &CopyKey, b: &CopyKey) -> bool
    ensures { IsTrue result ↔ Precedes a.now b.now }
{
    a.seat == b.seat && a < b
}

// The bytes of a message, each of which is charged for as long as the text stands, and the date that came with it.
#[derive(Drop)]
struct Letter {
    bytes: Vec<u8>,
    date: Option<Stamp>,
    charge: Charge,
    ghost charged: { charge.bytes ≡ length bytes.items },
}

/// The bytes of a message, and the date that its APPEND brought: all copies of it share them.
#[derive(Drop)]
pub struct Text {
    letter: Arc<Letter>,
}

impl Model for Text {
    ghost use Rattle.std.specs.Arc.{arc_value};
    ghost use Rattle.delivery_token.specs.Text.{Text};

    ghost Value = { Text };

    ghost view = { λ t. record { bytes = (arc_value t.letter).bytes.items; date = (arc_value t.letter).date } };
}

impl Text {
    ghost use Rattle.mail_date.specs.Dates.{is_date};
    ghost use Rattle.delivery_token.specs.Text.{date_of, undated};

    /// The text that has these bytes, which are not copied, and no date of its own.
    ///
    /// Errors: `AllocError` where memory is refused for what its copies share.
    pub fn new(bytes: Vec<u8>) -> Result<Text, AllocError>
        ensures { IfOk result (λ t. t ≡ undated bytes.items) }
    {
        Text::with_date(bytes, None)
    }

    /// The text that has these bytes, which are not copied, and the date that came with it, where one did. They are charged to nobody.
    ///
    /// Errors: `AllocError` where memory is refused for what its copies share.
    pub fn with_date(bytes: Vec<u8>, date: Option<Stamp>) -> Result<Text, AllocError>
        ensures { IfOk result (λ t. t ≡ record { bytes = bytes.items; date = date }) }
    {
        Text::charged(&Budget::unlimited(), bytes, date)
    }

    /// The same, charged to this budget once, however many copies share it, until the last of them is let go.
    ///
    /// Errors: `AllocError` where that would pass the budget's limit, or memory is refused for what its copies share.
    pub fn charged(budget: &Budget, bytes: Vec<u8>, date: Option<Stamp>) -> Result<Text, AllocError>
        ensures { IfOk result (λ t. t ≡ record { bytes = bytes.items; date = date }) }
    {
        let alloc = *bytes.allocator();
        let letter = letter_of(budget, bytes, date)?;
        Ok(Text {
            letter: Arc::new(alloc, letter)?,
        })
    }

    /// Its bytes.
    pub fn as_slice(&self) -> &[u8]
        ensures { result.now ≡ self.now.bytes }
    {
        self.letter.bytes.as_slice()
    }

    /// The date that came with it, where one did.
    pub fn given_date(&self) -> Option<Stamp>
        ensures { result ≡ self.now.date }
    {
        self.letter.date
    }

    /// The date of the message (RFC 9051, 2.3.3): the one that came with it, or else the one that its header says, for which the header is read.
    pub fn date(&self) -> Stamp
        ensures date { result ≡ date_of self.now }
        ensures valid { is_date result ≡ true }
    {
        received(self.letter.date, self.letter.bytes.as_slice())
    }

    /// An equal text, which shares its bytes, or an error where that is refused.
    pub fn copy(&self) -> Result<Text, AllocError>
        ensures { IfOk result (λ t. t ≡ self.now) }
    {
        Ok(Text {
            letter: once_more(&self.letter)?,
        })
    }
}

// The bytes, charged to this budget. An error where that would pass its limit, or memory is refused.
fn letter_of(budget: &Budget, bytes: Vec<u8>, date: Option<Stamp>) -> Result<Letter, AllocError>
    ensures text { IfOk result (λ l. (l.bytes.items ≡ bytes.items) × (l.date ≡ date)) }
    ensures charged { IfOk result (λ l. IsCharged budget.now (length bytes.items) l.charge) }
{
    match budget.charge(bytes.len() as u64) {
        Ok(charge) => Ok(Letter {
            bytes,
            date,
            charge,
        }),
        Err(_) => Err(AllocError),
    }
}

// The same letter, with the charge that it has: the seat that holds it is no second one.
fn once_more(letter: &Arc<Letter>) -> Result<Arc<Letter>, AllocError>
    ensures { IfOk result (λ l. arc_value l ≡ arc_value letter.now) }
{
    Arc::try_clone(letter)
}

/// One recipient's copy of a message, on its way to a mailbox, with the flags that it is to have
/// there: none where LMTP brought it.
#[derive(Drop)]
pub struct Job {
    /// Which copy it is: it goes with the verdict, back to the seat.
    pub key: CopyKey,
    /// The number of the mailbox that it is for.
    pub mailbox: u8,
    /// The bytes that are to be stored, which all copies of the message share.
    pub text: Text,
    /// The flags that it is to have as it arrives.
    pub flags: Flags,
}

/// Why a copy is not stored.
#[derive(Clone, Copy, Debug, PartialEq, Eq)]
pub enum Refusal {
    /// The shard's queue has no room.
    Full,
    /// The mailbox holds as many messages as it may.
    MailboxFull,
    /// Memory was refused.
    NoMemory,
    /// The mailbox has no UID left.
    UidSpent,
    /// Its seat has put its end into the queue of the shard, which is being closed.
    Shut,
}

impl From<AllocError> for Refusal {
    ghost use Rattle.delivery_token.specs.declared.Refusal.{Refusal};

    ghost from_gives = { λ _ why. why ≡ Refusal.NoMemory };

    fn from(_error: AllocError) -> Refusal {
        Refusal::NoMemory
    }
}

/// What became of a copy.
#[derive(Clone, Copy, Debug, PartialEq, Eq)]
pub enum Verdict {
    /// It stands in its mailbox under this UID.
    Stored { uid: u32 },
    /// It was not stored.
    Refused(Refusal),
}
