//! The peers of the one-thread house, each as it stands there: an LMTP connection at its seat, an IMAP session at its place and its
//! seat. Bytes wait, what was said is kept until it was printed; lanes and mailboxes are told of elsewhere.
#![tactic(auto)]

mod connection;
mod laws;
mod seated;
mod session;

pub use connection::HouseConnection;
pub use laws::what_waits_is_kept;
pub use seated::SeatedSession;
pub use session::HouseSession;
