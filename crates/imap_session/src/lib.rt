//! One IMAP session over any store of mailboxes: what is answered to each line, and what is asked of the store for it, in which order
//! (RFC 9051, 6 and 7). How lines are spelled is told in `imap_grammar`; the store's mailboxes stand elsewhere.
//! The connection that cuts one client's bytes into lines and literals is here too, and which mailboxes a user knows by name.
#![tactic(auto)]

mod access;
mod appending;
mod batch;
mod command_line;
mod connection;
mod copied;
mod copying;
mod count;
mod expunge;
mod fetch;
mod folders;
mod joining;
mod laws;
mod mailing;
mod plain;
mod response;
mod say;
mod search;
mod select;
mod selected;
mod session;
mod set_flags;
mod standing;
mod store;
mod tag;
mod texts;
mod turn;
mod unfinished;
mod user;
mod users;
mod verdict;

pub use connection::{ImapConnection, Progress};
pub use laws::{
    changes_are_shown_in_order, done_shows_in_order, literals_may_be_cut,
    only_a_stored_verdict_tells_a_uid, parts_show_none, rest_shows_none, texts_go_on_a_line,
    verdicts_show_in_order,
};
pub use session::Session;
pub use standing::{Admission, After, Append, Folder, Profile, Selected, SessionFault};
pub use store::Store;
pub use texts::{MOST_SERVER_TEXT, MOST_TEXT, ResponseText, ServerText};
pub use user::UserName;
pub use users::{admission_of, folders_of, has_user};
