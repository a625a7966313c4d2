//! What a line says: verbs, commands and faults, as plain values that borrow from the line; and the table of the verbs, by their words.
//! Nothing here reads a line.

ghost use Rattle.std.specs.Prelude.{◌≡◌};
ghost use Rattle.imap_grammar.specs.Reading.{verb_among};
ghost use Rattle.imap_grammar.specs.Verbs.{alone, behind_uid, copy_verb, is_left_out, left_out, offered};

use crate::items::{FetchItems, StatusItems};
use crate::keys::SearchKeys;
use crate::name::Name;
use crate::set::SeqSet;
use change_ring::{FlagOp, Flags};
use mail_date::Stamp;
use std::marker::Model;

/// What a client calls its command (RFC 9051, 2.2.1): in contracts its bytes.
#[derive(Drop)]
pub struct Tag<'a> {
    bytes: &'a [u8],
}

impl<'a> Model for Tag<'a> {
    ghost use Rattle.std.specs.Prelude.{List, ℕ};

    ghost Value = { List ℕ };

    ghost view = { λ t. t.bytes.now };
}

impl<'a> Tag<'a> {
    pub(crate) fn of(bytes: &'a [u8]) -> Tag<'a>
        ensures { result ≡ bytes.now }
    {
        Tag { bytes }
    }

    /// The tag as the client wrote it.
    pub fn as_bytes(&self) -> &[u8]
        ensures { result.now ≡ self.now }
    {
        self.bytes
    }
}

/// A word of a line: in contracts its bytes.
#[derive(Drop)]
pub struct Word<'a> {
    spelled: &'a [u8],
}

impl<'a> Model for Word<'a> {
    ghost use Rattle.std.specs.Prelude.{List, ℕ};

    ghost Value = { List ℕ };

    ghost view = { λ w. w.spelled.now };
}

impl<'a> Word<'a> {
    pub(crate) fn of(spelled: &'a [u8]) -> Word<'a>
        ensures { result ≡ spelled.now }
    {
        Word { spelled }
    }

    /// The word as the client wrote it.
    pub fn as_bytes(&self) -> &[u8]
        ensures { result.now ≡ self.now }
    {
        self.spelled
    }
}

/// The verbs of IMAP, those of two words among them.
#[derive(Clone, Copy, Debug, PartialEq, Eq)]
pub enum Verb {
    Capability,
    Noop,
    Logout,
    Namespace,
    Idle,
    Login,
    Authenticate,
    StartTls,
    Select,
    Examine,
    List,
    Status,
    Close,
    Unselect,
    Expunge,
    Fetch,
    Store,
    UidFetch,
    UidStore,
    UidExpunge,
    Append,
    Create,
    Delete,
    Rename,
    Subscribe,
    Unsubscribe,
    Copy,
    Move,
    Search,
    Enable,
    UidCopy,
    UidMove,
    UidSearch,
    /// RFC 3501, 6.4.1.
    Check,
    /// RFC 3501, 6.3.9.
    Lsub,
    /// RFC 2971, 3.1.
    Id,
}

/// AUTHENTICATE (RFC 9051, 6.2.2).
#[derive(Drop)]
pub struct Authenticate<'a> {
    /// The name of the mechanism that the client wants.
    pub mechanism: Word<'a>,
    /// The client's first response, where it stands in the line: base64, or `=` for an empty one.
    pub initial: Option<Word<'a>>,
}

/// FETCH and UID FETCH (RFC 9051, 6.4.5 and 6.4.9).
#[derive(Drop)]
pub struct Fetch<'a> {
    /// The set names UIDs.
    pub by_uid: bool,
    /// Which messages: by their positions, unless `by_uid`.
    pub set: SeqSet<'a>,
    /// What is asked of each.
    pub items: FetchItems<'a>,
}

impl<'a> Fetch<'a> {
    ghost use Rattle.std.specs.Prelude.{◌≡◌, if◌then◌else◌};

    fn verb(&self) -> Verb
        ensures { result ≡ (if self.now.by_uid then Verb.UidFetch else Verb.Fetch) }
    {
        if self.by_uid {
            Verb::UidFetch
        } else {
            Verb::Fetch
        }
    }
}

/// STORE and UID STORE (RFC 9051, 6.4.6 and 6.4.9).
#[derive(Drop)]
pub struct Store<'a> {
    /// The set names UIDs.
    pub by_uid: bool,
    /// Which messages: by their positions, unless `by_uid`.
    pub set: SeqSet<'a>,
    /// The new flags aren't answered.
    pub silent: bool,
    /// What becomes of the flags of each.
    pub change: FlagOp,
}

impl<'a> Store<'a> {
    ghost use Rattle.std.specs.Prelude.{◌≡◌, if◌then◌else◌};

    fn verb(&self) -> Verb
        ensures { result ≡ (if self.now.by_uid then Verb.UidStore else Verb.Store) }
    {
        if self.by_uid {
            Verb::UidStore
        } else {
            Verb::Store
        }
    }
}

/// COPY and MOVE, and their forms by UID (RFC 9051, 6.4.7 to 6.4.9).
#[derive(Drop)]
pub struct CopyMessages<'a> {
    /// The set names UIDs.
    pub by_uid: bool,
    /// The messages are removed from the selected mailbox, once their copies are stored.
    pub moves: bool,
    /// Which messages: by their positions, unless `by_uid`.
    pub set: SeqSet<'a>,
    /// The mailbox that they go to.
    pub name: Name<'a>,
}

/// The verb of COPY or MOVE, by UID or not.
pub fn copy_verb(by_uid: bool, moves: bool) -> Verb
    ensures { result ≡ copy_verb by_uid moves }
{
    match (by_uid, moves) {
        (false, false) => Verb::Copy,
        (true, false) => Verb::UidCopy,
        (false, true) => Verb::Move,
        (true, true) => Verb::UidMove,
    }
}

/// Bytes that the client sends behind the line, as the line announces them (RFC 9051, 4.3).
#[derive(Clone, Copy, Debug, PartialEq, Eq)]
pub struct Literal {
    /// How many; the greatest number of 64 bits where they are as many or more.
    pub size: u64,
    /// The client waits to be asked for them.
    pub waits: bool,
}

/// APPEND (RFC 9051, 6.3.12), as far as its line goes.
#[derive(Drop)]
pub struct Append<'a> {
    /// The name of the mailbox that it is for.
    pub name: Name<'a>,
    /// The flags that it is to have: none where the line has no list of them.
    pub flags: Flags,
    /// The date and time that it is to have: none where the line has no quoted string, or one that is no date.
    pub date: Option<Stamp>,
    /// Its bytes, as the line announces them.
    pub literal: Literal,
}

/// What a search is to return, where its line says so (RFC 9051, 6.4.4: search-return-opts).
#[derive(Clone, Copy, Debug, PartialEq, Eq)]
pub struct SearchReturns {
    /// The lowest number of a message that was found.
    pub min: bool,
    /// The highest.
    pub max: bool,
    /// How many were found.
    pub count: bool,
    /// All of them: so too where the parentheses behind RETURN are empty.
    pub all: bool,
}

/// SEARCH and UID SEARCH (RFC 9051, 6.4.4).
#[derive(Drop)]
pub struct Search<'a> {
    /// The UIDs of the messages are asked for, and not their positions.
    pub by_uid: bool,
    /// What its client asks to be told of them, or None where the line has no RETURN.
    pub returns: Option<SearchReturns>,
    /// The line names no charset, or US-ASCII or UTF-8.
    pub known_charset: bool,
    /// Which messages.
    pub keys: SearchKeys<'a>,
}

impl<'a> Search<'a> {
    ghost use Rattle.std.specs.Prelude.{◌≡◌, if◌then◌else◌};

    fn verb(&self) -> Verb
        ensures { result ≡ (if self.now.by_uid then Verb.UidSearch else Verb.Search) }
    {
        if self.by_uid {
            Verb::UidSearch
        } else {
            Verb::Search
        }
    }
}

/// A command (RFC 9051, 6). What follows STARTTLS is dropped.
#[derive(Drop)]
pub enum Command<'a> {
    Capability,
    Noop,
    Logout,
    Namespace,
    /// RFC 2177.
    Idle,
    /// RFC 9051, 6.2.3.
    Login {
        user: Name<'a>,
        password: Name<'a>,
    },
    Authenticate(Authenticate<'a>),
    StartTls,
    Select(Name<'a>),
    Examine(Name<'a>),
    List {
        reference: Name<'a>,
        pattern: Name<'a>,
    },
    Status {
        name: Name<'a>,
        items: StatusItems<'a>,
    },
    Close,
    Unselect,
    Expunge,
    UidExpunge(SeqSet<'a>),
    Fetch(Fetch<'a>),
    Store(Store<'a>),
    Copy(CopyMessages<'a>),
    Append(Append<'a>),
    /// RFC 3501, 6.4.1.
    Check,
    /// RFC 3501, 6.3.9: LIST of the mailboxes that are subscribed to.
    Lsub {
        reference: Name<'a>,
        pattern: Name<'a>,
    },
    Subscribe(Name<'a>),
    Unsubscribe(Name<'a>),
    Search(Search<'a>),
    /// RFC 9051, 6.3.1. The names of what is to be enabled are read and dropped.
    Enable,
    /// RFC 2971, 3.1. What the client says of itself is read and dropped.
    Id,
}

impl<'a> Command<'a> {
    ghost use Rattle.std.specs.Prelude.{◌≡◌};
    ghost use Rattle.imap_grammar.specs.Verbs.{verb_of};

    /// The verb by which the client calls it.
    pub fn verb(&self) -> Verb
        ensures { result ≡ verb_of self.now }
    {
        match self {
            Command::Capability => Verb::Capability,
            Command::Noop => Verb::Noop,
            Command::Logout => Verb::Logout,
            Command::Namespace => Verb::Namespace,
            Command::Idle => Verb::Idle,
            Command::Login { .. } => Verb::Login,
            Command::Authenticate(_) => Verb::Authenticate,
            Command::StartTls => Verb::StartTls,
            Command::Select(_) => Verb::Select,
            Command::Examine(_) => Verb::Examine,
            Command::List { .. } => Verb::List,
            Command::Status { .. } => Verb::Status,
            Command::Close => Verb::Close,
            Command::Unselect => Verb::Unselect,
            Command::Expunge => Verb::Expunge,
            Command::UidExpunge(_) => Verb::UidExpunge,
            Command::Fetch(fetch) => fetch.verb(),
            Command::Store(store) => store.verb(),
            Command::Copy(copy) => copy_verb(copy.by_uid, copy.moves),
            Command::Append(_) => Verb::Append,
            Command::Check => Verb::Check,
            Command::Lsub { .. } => Verb::Lsub,
            Command::Subscribe(_) => Verb::Subscribe,
            Command::Unsubscribe(_) => Verb::Unsubscribe,
            Command::Search(search) => search.verb(),
            Command::Enable => Verb::Enable,
            Command::Id => Verb::Id,
        }
    }
}

/// Why a line is no command. The first that holds is the fault.
#[derive(Drop)]
pub enum ImapFault<'a> {
    /// The first word is no tag.
    NoTag,
    /// No verb follows the tag.
    Unknown(Tag<'a>),
    /// The verb is of IMAP, and isn't offered here.
    LeftOut(Tag<'a>),
    /// What follows this verb isn't right for it.
    Arguments(Tag<'a>, Verb),
}

/// The verb of one word that is offered here.
pub(crate) fn offered(word: &[u8]) -> Option<Verb>
    ensures { result ≡ verb_among offered word.now }
{
    if word.eq_ignore_ascii_case(b"CAPABILITY") {
        Some(Verb::Capability)
    } else if word.eq_ignore_ascii_case(b"NOOP") {
        Some(Verb::Noop)
    } else if word.eq_ignore_ascii_case(b"LOGOUT") {
        Some(Verb::Logout)
    } else if word.eq_ignore_ascii_case(b"NAMESPACE") {
        Some(Verb::Namespace)
    } else if word.eq_ignore_ascii_case(b"IDLE") {
        Some(Verb::Idle)
    } else if word.eq_ignore_ascii_case(b"LOGIN") {
        Some(Verb::Login)
    } else if word.eq_ignore_ascii_case(b"AUTHENTICATE") {
        Some(Verb::Authenticate)
    } else if word.eq_ignore_ascii_case(b"STARTTLS") {
        Some(Verb::StartTls)
    } else if word.eq_ignore_ascii_case(b"SELECT") {
        Some(Verb::Select)
    } else if word.eq_ignore_ascii_case(b"EXAMINE") {
        Some(Verb::Examine)
    } else if word.eq_ignore_ascii_case(b"LIST") {
        Some(Verb::List)
    } else if word.eq_ignore_ascii_case(b"STATUS") {
        Some(Verb::Status)
    } else if word.eq_ignore_ascii_case(b"CLOSE") {
        Some(Verb::Close)
    } else if word.eq_ignore_ascii_case(b"UNSELECT") {
        Some(Verb::Unselect)
    } else if word.eq_ignore_ascii_case(b"EXPUNGE") {
        Some(Verb::Expunge)
    } else if word.eq_ignore_ascii_case(b"FETCH") {
        Some(Verb::Fetch)
    } else if word.eq_ignore_ascii_case(b"STORE") {
        Some(Verb::Store)
    } else if word.eq_ignore_ascii_case(b"COPY") {
        Some(Verb::Copy)
    } else if word.eq_ignore_ascii_case(b"MOVE") {
        Some(Verb::Move)
    } else if word.eq_ignore_ascii_case(b"APPEND") {
        Some(Verb::Append)
    } else if word.eq_ignore_ascii_case(b"CHECK") {
        Some(Verb::Check)
    } else if word.eq_ignore_ascii_case(b"LSUB") {
        Some(Verb::Lsub)
    } else if word.eq_ignore_ascii_case(b"SUBSCRIBE") {
        Some(Verb::Subscribe)
    } else if word.eq_ignore_ascii_case(b"UNSUBSCRIBE") {
        Some(Verb::Unsubscribe)
    } else if word.eq_ignore_ascii_case(b"SEARCH") {
        Some(Verb::Search)
    } else if word.eq_ignore_ascii_case(b"ENABLE") {
        Some(Verb::Enable)
    } else if word.eq_ignore_ascii_case(b"ID") {
        Some(Verb::Id)
    } else {
        None
    }
}

/// The verb of one word that isn't.
pub(crate) fn left_out(word: &[u8]) -> Option<Verb>
    ensures { result ≡ verb_among left_out word.now }
{
    if word.eq_ignore_ascii_case(b"CREATE") {
        Some(Verb::Create)
    } else if word.eq_ignore_ascii_case(b"DELETE") {
        Some(Verb::Delete)
    } else if word.eq_ignore_ascii_case(b"RENAME") {
        Some(Verb::Rename)
    } else {
        None
    }
}

/// The verb that UID and this word are.
pub(crate) fn behind_uid(word: &[u8]) -> Option<Verb>
    ensures { result ≡ verb_among behind_uid word.now }
{
    if word.eq_ignore_ascii_case(b"FETCH") {
        Some(Verb::UidFetch)
    } else if word.eq_ignore_ascii_case(b"STORE") {
        Some(Verb::UidStore)
    } else if word.eq_ignore_ascii_case(b"EXPUNGE") {
        Some(Verb::UidExpunge)
    } else if word.eq_ignore_ascii_case(b"COPY") {
        Some(Verb::UidCopy)
    } else if word.eq_ignore_ascii_case(b"MOVE") {
        Some(Verb::UidMove)
    } else if word.eq_ignore_ascii_case(b"SEARCH") {
        Some(Verb::UidSearch)
    } else {
        None
    }
}

/// Whether a verb of IMAP isn't offered here.
pub(crate) fn is_left_out(verb: Verb) -> bool
    ensures { result ≡ is_left_out verb }
{
    matches!(verb, Verb::Create | Verb::Delete | Verb::Rename)
}

/// The command that a verb is with nothing after it.
pub(crate) fn alone<'a>(verb: Verb) -> Option<Command<'a>>
    ensures { result ≡ alone verb }
{
    match verb {
        Verb::Capability => Some(Command::Capability),
        Verb::Noop => Some(Command::Noop),
        Verb::Logout => Some(Command::Logout),
        Verb::Namespace => Some(Command::Namespace),
        Verb::Idle => Some(Command::Idle),
        Verb::Close => Some(Command::Close),
        Verb::Unselect => Some(Command::Unselect),
        Verb::Expunge => Some(Command::Expunge),
        Verb::Check => Some(Command::Check),
        _ => None,
    }
}
