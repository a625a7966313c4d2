//! Lines of a server whose connections are lists of bytes: they tell all that came and all that was said. A whole server is tried over them. What is
//! proved of a server stands in `serving`, and what a relay may conclude of it in `laws_relay`.
#![tactic(auto)]

mod lists;
#[cfg(test)]
mod served;

pub use lists::{ListLine, ListLines, Lists, Paper};
