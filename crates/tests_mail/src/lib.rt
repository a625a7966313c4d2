//! Tests of bytes, mail and mailboxes, as one who uses those crates would call them: lines, data, rings, keys and logs, gates, bells, sockets; commands,
//! directories, lanes, cursors, mailboxes, LMTP's dialogues, the delivery of a copy and what a server reports. What is proved of them stands in their own crates.
#![tactic(auto)]

#[cfg(test)]
mod tests;
