//! The command line of the program: which words clap takes, and what they ask for, a script or a server with its settings. Nothing is
//! run here, and nothing is written.
#![tactic(auto)]

mod asked;
mod options;

pub use asked::{Asked, asked_of};
