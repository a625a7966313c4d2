//! One mailbox: its messages, its last changes, the copies that it accepted, and its clients'
//! cursors. Lanes, verdicts and commands stand in other crates.
#![tactic(auto)]

mod answers;
mod choice;
mod clients;
mod history;
mod laws;
mod letters;
mod logging;
mod mailbox;
mod messages;
mod removal;

pub use answers::{answer_of, verdict_of};
pub use clients::{MailFault, Opening, Row};
pub use history::History;
pub use laws::every_mailbox_keeps;
pub use mailbox::{Limits, Mailbox, Receipt, Status};
