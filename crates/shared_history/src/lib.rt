//! A history that threads share, in proofs alone: a list that only grows, under a rule. No token here
//! has a byte, and no function does anything at run time. Whoever owns a part of the history knows
//! exactly what stands of it; everybody else may know how the history begins.
#![tactic(auto)]

mod tokens;

pub use tokens::{Entry, Owner, Rights, Rule, Seen};
