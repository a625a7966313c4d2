//! The settings of a house: its names, mailboxes and numbers, how far each number may go, what may be wrong with them, and the directory that they
//! settle; what the clients of a plan do; and what a script and a server are asked for besides. No house is made here, and no command line is read.
#![tactic(auto)]

mod asking;
mod config;
mod directory;
pub mod numbers;
mod step;

pub use asking::{Form, Reporting, Uidvalidity};
pub use config::{Config, ConfigFault, DOMAIN, HOST};
pub use directory::directory_of;
pub use step::Step;
