//! What lies between the connections and the sessions: lanes, hands, reply lanes and mailboxes, each
//! call one event of the world. No connection, no session and no output stands here.
#![tactic(auto)]

mod client;
mod clients;
mod group;
mod make;
mod steps;

pub use steps::{DeliveryCore, Fault, HearFault, Settings};
