//! The answers of IMAP that tell of messages and mailboxes (RFC 9051, 7), byte by byte: to FETCH, SEARCH, STORE, SELECT and STATUS, to LIST with the names that
//! a pattern stands for, and sets of UIDs. How commands are spelled is told in `imap_grammar`; who is answered what and when, in the crates above.
#![tactic(auto)]

mod date;
mod extended;
mod fetch;
mod fields;
mod flags;
mod found;
mod laws;
mod list;
mod number_set;
mod opening;
mod room;
mod sections;
mod status;
mod store;
mod uid_set;
mod words;

pub use fetch::write_row;
pub use found::write_found;
pub use laws::patterns_match_what_they_stand_for;
pub use list::{Listing, write_list};
pub use opening::{OPENING_ROOM, put_opening};
pub use room::row_room;
pub use status::write_status;
pub use store::write_stored;
pub use uid_set::put_uid_set;
