//! The settings of a board, the registers that reach them, and how they judge a reading.
#![tactic(auto)]

pub mod judge;
pub mod mode;
pub mod register;
pub mod settings;
pub mod threshold;
