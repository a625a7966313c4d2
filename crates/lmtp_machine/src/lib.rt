//! The server's side of one LMTP connection (RFC 2033): bytes in any pieces go in, replies and submitted messages come out, as
//! specs/Dialogue.antt says of whole lines. Sockets, queues and mailboxes are for the crates above.
#![tactic(auto)]

mod commands;
mod connection;
mod laws;
mod machine;
mod message;
mod reply;

pub use connection::{Fed, Limits, Submission, What};
pub use envelope::MOST_RECIPIENTS;
pub use laws::{any_pieces, lines_are_heard_in_time, messages_are_numbered};
pub use machine::LmtpMachine;
pub use reply::{ANSWER_ROOM, Reply};
