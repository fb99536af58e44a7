//! Reads a run of words: bytes into words, and the event, the filler or the fault at a place.
#![tactic(auto)]

mod event;
pub mod fault;
pub mod item;
pub mod pack;
pub mod run;
