//! The running house: a plan is run by threads, one for each worker, each shard's consumer and each
//! session, and what they leave is compared and reported. What an actor does in its life stands
//! below, sockets and command lines elsewhere.
//! Here are: the threads, made in one scope and joined there (`threads`); whether the lists that a run leaves agree; and the laws of a worker's account.
#![tactic(auto)]

mod account_laws;
mod agree;
mod aside;
mod begun;
mod common;
mod consumers;
mod copies;
mod laws;
mod parcels;
mod plan;
mod producers;
mod refusals;
mod report;
mod run;
mod sessions;
mod there;
mod threads;
mod told;

pub use account_laws::{connections_are_of_lines, lines_are_told, logs_meet_lanes};
pub use agree::lists_agree;
pub use laws::{full_tells_no_more, reports_tell_of_each_copy};
pub use plan::{Plan, Report, WorkFault};
pub use run::run_house;
