//! The lines of an IMAP client: commands as a line spells them, and which messages of a view a set names.
//! A line is told as what the written grammar of specs/Grammar.antt says of it.
//! Answers, sessions and mailboxes are for other crates.
#![tactic(auto)]

mod arguments;
mod bytes;
mod command;
mod containing;
mod cut;
mod dates;
mod item_words;
mod items;
mod key_words;
mod keys;
mod laws;
mod letters;
mod literal;
mod name;
mod number;
mod positions;
mod ranges;
mod reading;
mod returns;
mod set;
mod strings;
mod view;
mod words;

pub use command::{
    Append, Authenticate, Command, CopyMessages, Fetch, ImapFault, Literal, Search, SearchReturns,
    Store, Tag, Verb, Word, copy_verb,
};
pub use cut::cut_at;
pub use dates::Day;
pub use items::{
    BodyPart, FetchItem, FetchItems, FieldNames, Section, Span, StatusItem, StatusItems, field_name,
};
pub use key_words::SystemFlag;
pub use keys::SearchKeys;
pub use laws::{lines_are_read_by_the_grammar, literals_are_announced, quoted_texts_are_read};
pub use literal::{announced, put_quoted, quoted_len};
pub use name::Name;
pub use reading::{is_done, read_line};
pub use set::{SeqNumber, SeqRange, SeqSet, SetFault};
pub use view::Named;
