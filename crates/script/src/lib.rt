//! The lines of a script that is put to a board: parts and numbers, calls, lines.
#![tactic(auto)]

pub mod call;
mod calls;
pub mod mistake;
mod numbers;
pub mod parse;
mod parts;
