//! Front ends: the kinds of converter that a board can carry.
#![tactic(auto)]

pub mod charge;
pub mod front_end;
pub mod kind;
pub mod step;
pub mod time;
