//! Laws of what a mail relay may conclude from the bytes that it is told, and from nothing else. They are of replies and messages, over the record
//! of a house on one thread, over the report of a running house, and over the history of a server. No code lives here, but laws.
#![tactic(auto)]

mod account_laws;
mod record_laws;
mod reply_laws;
mod served_laws;

pub use account_laws::{
    accounts_conclude, connections_of_accounts_are_known, reports_conclude, uids_are_alone,
};
pub use record_laws::{
    StillSessions, imap_sessions_may_visit, relays_may_conclude, relays_may_conclude_over_any,
};
pub use reply_laws::{connections_are_known, messages_are_known, replies_are_read};
pub use served_laws::{
    client_slots_conclude, lines_conclude, served_relays_conclude, servers_conclude,
    workers_conclude,
};
