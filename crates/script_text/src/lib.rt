//! What a script's lines answer, as text.
#![tactic(auto)]

mod digits;
pub mod reply;
