//! One board that plays: it is a bank of one station.
#![tactic(auto)]

pub mod board;
mod signal;
