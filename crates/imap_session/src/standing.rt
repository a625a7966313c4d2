//! Where a session stands: which commands it has, its folders, the mailbox that it selected, and whether it idles or has ended.
//! What it answers is told in specs/Commands.antt.

use crate::user::UserName;
use budget::Budget;
use change_ring::Flags;
use delivery_token::Text;
use std::alloc::AllocError;
use std::marker::Model;

/// Which commands and answers a session has.
#[derive(Clone, Copy, Debug, PartialEq, Eq)]
pub enum Profile {
    /// Those of IMAP4rev2 that are offered, for a client that is known already (RFC 9051, 7.1.4).
    Standard,
    /// Those besides that fronts and clients of IMAP4rev1 want (RFC 3501). The client logs in first.
    Compatible,
}

/// What a client may send next.
#[derive(Clone, Copy, Debug, PartialEq, Eq)]
pub enum After {
    /// A command.
    Go,
    /// DONE, since the session idles (RFC 2177).
    Idle,
    /// So many bytes of the literal that its line announced, and behind them the rest of that line.
    Literal(usize),
    /// Nothing before the verdict is there on the message that was submitted.
    Submit,
    /// Nothing: the session has ended.
    Bye,
}

/// A message that a client appended, or had copied, on its way to its mailbox (RFC 9051, 6.3.12 and 6.4.7).
#[derive(Drop)]
pub struct Append {
    /// Which message of the session it is, from 0.
    pub message: u32,
    /// The mailbox's number.
    pub mailbox: u8,
    /// Its bytes, as they came in the literal, or as they stand in the mailbox that it is copied from.
    pub text: Text,
    /// The flags that it is to have in the mailbox.
    pub flags: Flags,
}

/// What a session begins with, beside its mailboxes.
#[derive(Drop)]
pub struct Admission {
    /// The most bytes of a message that its client appends. None: no message is taken.
    pub max_message: Option<u32>,
    /// Which commands and answers it has.
    pub profile: Profile,
    /// As whom the client is to log in before all else. None: it is known already.
    pub login: Option<UserName>,
    /// What the texts of the messages are charged to that its client appends.
    pub budget: Budget,
}

impl Model for Admission {
    ghost use Rattle.imap_session.specs.Exchange.{Admission as AdmissionSpec};

    ghost Value = { AdmissionSpec };

    ghost view = { λ t. record { most = t.max_message; profile = t.profile; login = t.login } };
}

/// Why a line wasn't taken. Nothing happened, and nothing changed.
#[derive(Clone, Copy, Debug, PartialEq, Eq)]
pub enum SessionFault {
    /// The session has ended.
    Ended,
    /// Memory was refused before anything was done.
    NoMemory,
}

impl From<AllocError> for SessionFault {
    ghost use Rattle.std.specs.Prelude.{◌≡◌};
    ghost use Rattle.imap_session.specs.declared.standing.SessionFault.{SessionFault};

    ghost from_gives = { λ _ fault. fault ≡ SessionFault.NoMemory };

    fn from(_error: AllocError) -> SessionFault {
        SessionFault::NoMemory
    }
}

/// The selected mailbox.
#[derive(Clone, Copy, Debug, PartialEq, Eq)]
pub struct Selected {
    /// Its number.
    pub mailbox: u8,
    /// It was selected by EXAMINE, and the session changes nothing in it (RFC 9051, 6.3.3).
    pub read_only: bool,
}

/// A mailbox of the session's user, under the name that the user knows it by: `INBOX`, or a folder's own
/// name as `Work`.
#[derive(Drop)]
pub struct Folder {
    name: Vec<u8>,
    mailbox: u8,
}

impl Model for Folder {
    ghost use Rattle.imap_session.specs.Exchange.{Folder as FolderSpec};

    ghost Value = { FolderSpec };

    ghost view = { λ f. record { name = f.name.items; mailbox = f.mailbox } };
}

impl Folder {
    ghost use Rattle.std.specs.Prelude.{◌≡◌};

    /// The mailbox of this number under this name.
    pub fn new(name: Vec<u8>, mailbox: u8) -> Folder
        ensures { result ≡ record { name = name.items; mailbox = mailbox } }
    {
        Folder { name, mailbox }
    }

    /// The name.
    pub fn name(&self) -> &[u8]
        ensures { result.now ≡ self.now.name }
    {
        &self.name
    }

    /// The mailbox's number.
    pub fn mailbox(&self) -> u8
        ensures { result ≡ self.now.mailbox }
    {
        self.mailbox
    }
}
