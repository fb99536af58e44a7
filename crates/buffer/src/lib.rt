//! The events of a board that wait, at most 32.
#![tactic(auto)]

pub mod buffer;
pub mod fill;
mod pointers;
mod slot;
mod spell;

pub use pointers::SLOTS;
