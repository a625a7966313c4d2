//! Tests of connections over streams, LMTP's and IMAP's, and of a session's thread, as a server would use them. What is proved of them stands in their
//! own crates.
#![tactic(auto)]

#[cfg(test)]
mod tests;
