//! A recorded run, from its bytes to its records: what the program `records` does.
#![tactic(auto)]

pub mod convert;
pub mod outcome;
