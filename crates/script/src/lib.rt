//! The script form: what a line of a script asks for, what it does to a house, and what is written of that. A house's events are told in
//! the crate `house`, the command line in `post_house`.
#![tactic(auto)]

mod line;
mod program;
mod reading;
mod run;
mod telling;

pub use line::ScriptLine;
pub use program::{ScriptFault, run_script};
pub use run::{RunFault, drive, drive_as};
