//! The workers of a server: each accepts one LMTP connection after another until the house stops, hands its copies over to the shared consumers of
//! the shards, and ends its permits; and the house that they leave is closed. Sessions, and who starts and stops all of it, stand above.
#![tactic(auto)]

mod accepting;
mod acceptor;
mod closing;
mod line;
mod mark;
mod parcels;
mod threads;
mod workplace;

pub use accepting::{Outfit, Served};
pub use acceptor::Acceptor;
pub use closing::{Finished, Rest, close_all};
pub use line::{Call, Line, Lines, Listens, SocketLine, SocketLines};
pub use mark::Mark;
pub use parcels::packed;
pub use threads::{Begun, Serves, Spawned, have_threads, join_producers, start_workers};
pub use workplace::Workplace;
