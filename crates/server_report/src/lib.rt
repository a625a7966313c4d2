//! What a server tells the people who run it: a line for each thing that happens, how many there were of each, and what it is doing now. That is
//! told over HTTP, as a page and as figures for a monitor. No connection of mail is served here, and nothing here is waited for by those who bring
//! mail.
#![tactic(auto)]

mod asking;
mod book;
mod counts;
mod escaping;
mod figures;
mod http;
mod line;
mod log;
mod metrics;
mod nap;
mod page;
mod presence;
mod refused;
mod scribe;
mod status;
mod summary;

pub use asking::{Answer, Front, MOST_FIELDS, Reply, read_request};
pub use book::{LogBook, Names};
pub use counts::{Counts, Refused};
pub use figures::{Connection, MailboxFigures, MailboxRow, PeerState, Session, Snapshot};
pub use http::write_answer;
pub use line::{Caller, Happened, append_call, append_copy, append_message, call_number};
pub use log::{Held, Keeps, LOG_ROOM, Log, Summary};
pub use metrics::write_metrics;
pub use page::write_page;
pub use presence::Presence;
pub use scribe::Scribe;
pub use status::{HEAD_ROOM, Heard, MOST_READS, ReadFault, Unsent, hear, tell};
pub use summary::append_summary;
