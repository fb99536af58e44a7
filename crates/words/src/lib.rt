//! The words of an event: header, data, end. Each is made from its parts and taken apart again.
#![tactic(auto)]

pub mod fault;
pub mod word;
