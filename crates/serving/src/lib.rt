//! A house that serves over sockets of the loopback address: mail on one port, each user's sessions on a port of their own, until it is
//! stopped. How a connection is talked to stands in `lane_work` and `imap_stream`, what workers leave in `serving_workers`; here
//! threads are started, stopped and joined.
#![tactic(auto)]

mod announcing;
mod client_slots;
mod closing;
mod equipment;
mod fault;
mod gathering;
mod limit;
mod page;
mod reporting;
mod run;
mod server;
mod sessions;
mod site;
mod sockets;
mod stopping;
mod telling;
mod visiting;
mod watch;

pub use fault::ServeFault;
pub use server::{Beginning, serve, serve_house};
