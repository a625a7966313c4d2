//! Tests of the one-thread house, of its sessions, of its promise and of scripts, as a program above them would call them, where no line of a script can
//! show it. What is proved of them stands in their own crates, and what a script shows in tests/dialogues.
#![tactic(auto)]

#[cfg(test)]
mod config;
#[cfg(test)]
mod connections;
#[cfg(test)]
mod events;
#[cfg(test)]
mod names;
#[cfg(test)]
mod scripts;
#[cfg(test)]
mod searches;
#[cfg(test)]
mod sessions;
#[cfg(test)]
mod stores;
#[cfg(test)]
mod uid_sets;
#[cfg(test)]
mod views;
#[cfg(test)]
mod visits;
