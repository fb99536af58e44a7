//! The refusals of a bank of boards, with their numbers.
#![tactic(auto)]

pub mod refusal;
