//! The texts that a session says, one variant for each that there is (RFC 9051, 7.1), and their bytes. The table of the texts stands in
//! specs/Texts.antt; what is said when is for the modules of the commands.

ghost use Rattle.std.specs.Prelude.{◌≡◌, ◌≤◌, length};
ghost use Rattle.imap_session.specs.Texts.{response_text};
ghost use Rattle.imap_session.specs.declared.texts.ResponseText.TheVariants as texts;

use crate::standing::Profile;
use imap_grammar::Verb;

/// A text has at most so many bytes.
pub const MOST_TEXT: usize = 45;

/// One of the server has at most so many.
pub const MOST_SERVER_TEXT: usize = 144;

/// What a line says behind its tag, where no number is in it; and what one that has none says: behind `* `, `* BYE ` or `+ `.
#[derive(Clone, Copy, Debug, PartialEq, Eq)]
pub enum ResponseText {
    /// The tagged OK of a command, unless it enters a mailbox.
    Completed(Verb),
    SelectCompleted,
    ExamineCompleted,
    NoSuchMailbox,
    /// No such mailbox, of APPEND: the client may create it and try again.
    TryCreate,
    NotOffered,
    /// Some messages that were to be fetched or changed are gone.
    MessagesGone,
    /// A COPY or MOVE of more messages than one command may name.
    TooManyMessages,
    ReadOnly,
    MailboxSpent,
    MessageTooBig,
    /// A SEARCH in a charset that isn't here (RFC 9051, 6.4.4).
    BadCharset,
    NulByte,
    OutOfMemory,
    ShardFull,
    ShardClosed,
    MailboxFull,
    NoUidLeft,
    WrongState,
    SequenceTooHigh,
    InvalidArguments,
    UnknownCommand,
    /// Another user's name (RFC 9051, 6.2.3).
    LoginFailed,
    /// A line that ends an IDLE and isn't DONE.
    ExpectedDone,
    /// The mailbox that was selected is left, as another is to be (untagged).
    PreviousClosed,
    /// Of a line that has no tag (untagged).
    MissingTag,
    /// Of a line that was too long to be kept (untagged).
    LineTooLong,
    /// Of messages that no session was told of before: there are none (untagged; RFC 3501, 7.3.2).
    NoneRecent,
    /// Of LOGOUT (behind BYE, as are those after it).
    LoggingOut,
    InternalFault,
    ChangesMissed,
    LiteralTooBig,
    ByeOutOfMemory,
    /// The client may send DONE (behind a plus).
    Idling,
    /// The client may send its literal (behind a plus).
    Ready,
}

/// What is said of the server, whatever the state: behind a star.
#[derive(Clone, Copy, Debug, PartialEq, Eq)]
pub enum ServerText {
    /// What is said first (RFC 9051, 7.1.1 and 7.1.4).
    Greeting(Profile),
    /// RFC 9051, 7.2.2.
    Capabilities(Profile),
    /// RFC 9051, 6.3.10.
    Namespaces,
    /// RFC 2971, 3.2: the name of the server and its version.
    Identity,
    /// RFC 9051, 6.3.1: there is nothing that a client could enable.
    NoneEnabled,
}

impl ServerText {
    ghost use Rattle.std.specs.Prelude.{◌≡◌, ◌≤◌, length};
    ghost use Rattle.imap_session.specs.Texts.{server_text};

    /// The bytes of the text: printable ASCII.
    pub fn bytes(self) -> &'static [u8]
        ensures text { result.now ≡ server_text self }
        ensures short { length result.now ≤ MOST_SERVER_TEXT }
    {
        match self {
            ServerText::Greeting(Profile::Standard) => b"PREAUTH IMAP4rev2 server ready",
            ServerText::Greeting(Profile::Compatible) =>
                b"OK [CAPABILITY IMAP4rev2 IMAP4rev1 AUTH=PLAIN ENABLE ESEARCH ID IDLE LITERAL- MOVE NAMESPACE SASL-IR UIDPLUS UNSELECT] IMAP4rev2 server ready",
            ServerText::Capabilities(Profile::Standard) => b"CAPABILITY IMAP4rev2 IDLE",
            ServerText::Capabilities(Profile::Compatible) =>
                b"CAPABILITY IMAP4rev2 IMAP4rev1 AUTH=PLAIN ENABLE ESEARCH ID IDLE LITERAL- MOVE NAMESPACE SASL-IR UIDPLUS UNSELECT",
            ServerText::Namespaces => b"NAMESPACE ((\"\" \"/\")) NIL NIL",
            ServerText::Identity => b"ID (\"name\" \"post_house\" \"version\" \"0.2.0\")",
            ServerText::NoneEnabled => b"ENABLED",
        }
    }
}

// The tagged OK of a command with this verb.
fn completed(verb: Verb) -> &'static [u8]
    ensures text { result.now ≡ response_text (texts.Completed verb) }
    ensures short { length result.now ≤ MOST_TEXT }
{
    match verb {
        Verb::Capability => b"OK CAPABILITY completed",
        Verb::Noop => b"OK NOOP completed",
        Verb::Logout => b"OK LOGOUT completed",
        Verb::Namespace => b"OK NAMESPACE completed",
        Verb::Idle => b"OK IDLE completed",
        Verb::Login => b"OK LOGIN completed",
        Verb::Authenticate => b"OK AUTHENTICATE completed",
        Verb::StartTls => b"OK STARTTLS completed",
        Verb::Select => b"OK SELECT completed",
        Verb::Examine => b"OK EXAMINE completed",
        Verb::List => b"OK LIST completed",
        Verb::Status => b"OK STATUS completed",
        Verb::Close => b"OK CLOSE completed",
        Verb::Unselect => b"OK UNSELECT completed",
        Verb::Expunge => b"OK EXPUNGE completed",
        Verb::Fetch => b"OK FETCH completed",
        Verb::Store => b"OK STORE completed",
        Verb::UidFetch => b"OK UID FETCH completed",
        Verb::UidStore => b"OK UID STORE completed",
        Verb::UidExpunge => b"OK UID EXPUNGE completed",
        Verb::Append => b"OK APPEND completed",
        Verb::Create => b"OK CREATE completed",
        Verb::Delete => b"OK DELETE completed",
        Verb::Rename => b"OK RENAME completed",
        Verb::Subscribe => b"OK SUBSCRIBE completed",
        Verb::Unsubscribe => b"OK UNSUBSCRIBE completed",
        Verb::Copy => b"OK COPY completed",
        Verb::Move => b"OK MOVE completed",
        Verb::Search => b"OK SEARCH completed",
        Verb::Enable => b"OK ENABLE completed",
        Verb::UidCopy => b"OK UID COPY completed",
        Verb::UidMove => b"OK UID MOVE completed",
        Verb::UidSearch => b"OK UID SEARCH completed",
        Verb::Check => b"OK CHECK completed",
        Verb::Lsub => b"OK LSUB completed",
        Verb::Id => b"OK ID completed",
    }
}

impl ResponseText {
    ghost use Rattle.std.specs.Prelude.{◌≡◌, ◌≤◌, length};
    ghost use Rattle.imap_session.specs.Texts.{response_text};

    /// The bytes of the text: printable ASCII.
    pub fn bytes(self) -> &'static [u8]
        ensures text { result.now ≡ response_text self }
        ensures short { length result.now ≤ MOST_TEXT }
    {
        match self {
            ResponseText::Completed(verb) => completed(verb),
            ResponseText::SelectCompleted => b"OK [READ-WRITE] SELECT completed",
            ResponseText::ExamineCompleted => b"OK [READ-ONLY] EXAMINE completed",
            ResponseText::NoSuchMailbox => b"NO [NONEXISTENT] No such mailbox",
            ResponseText::TryCreate => b"NO [TRYCREATE] No such mailbox",
            ResponseText::NotOffered => b"NO [CANNOT] Not offered here",
            ResponseText::MessagesGone => b"NO [EXPUNGEISSUED] Some messages are gone",
            ResponseText::TooManyMessages => b"NO [LIMIT] Too many messages at once",
            ResponseText::ReadOnly => b"NO Mailbox is read-only",
            ResponseText::MailboxSpent => b"NO Mailbox is spent",
            ResponseText::MessageTooBig => b"NO Message too big",
            ResponseText::BadCharset => b"NO [BADCHARSET (US-ASCII UTF-8)] Bad charset",
            ResponseText::NulByte => b"NO NUL byte",
            ResponseText::OutOfMemory => b"NO Out of memory",
            ResponseText::ShardFull => b"NO Shard full",
            ResponseText::ShardClosed => b"NO Shard closed",
            ResponseText::MailboxFull => b"NO Mailbox full",
            ResponseText::NoUidLeft => b"NO No UID left",
            ResponseText::WrongState => b"BAD Wrong state",
            ResponseText::SequenceTooHigh => b"BAD Sequence number too high",
            ResponseText::InvalidArguments => b"BAD Invalid arguments",
            ResponseText::UnknownCommand => b"BAD Unknown command",
            ResponseText::LoginFailed => b"NO [AUTHENTICATIONFAILED] Another user's port",
            ResponseText::ExpectedDone => b"BAD Expected DONE",
            ResponseText::PreviousClosed => b"OK [CLOSED] Previous mailbox is closed",
            ResponseText::MissingTag => b"BAD Missing tag",
            ResponseText::LineTooLong => b"BAD Line too long",
            ResponseText::NoneRecent => b"0 RECENT",
            ResponseText::LoggingOut => b"Logging out",
            ResponseText::InternalFault => b"Internal fault",
            ResponseText::ChangesMissed => b"Too many changes were missed",
            ResponseText::LiteralTooBig => b"Literal too big",
            ResponseText::ByeOutOfMemory => b"Out of memory",
            ResponseText::Idling => b"idling",
            ResponseText::Ready => b"ready",
        }
    }
}
