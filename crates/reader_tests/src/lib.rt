//! Tests of the reader and of what it stands on. What each expects is written out by hand from the rules.
#![tactic(auto)]

#[cfg(test)]
mod answers;
#[cfg(test)]
mod by_hand;
#[cfg(test)]
mod faults;
#[cfg(test)]
mod kinds;
#[cfg(test)]
mod lacking;
#[cfg(test)]
mod lifting;
#[cfg(test)]
mod limits;
#[cfg(test)]
mod packing;
pub mod pair;
#[cfg(test)]
mod parts;
#[cfg(test)]
mod records;
#[cfg(test)]
mod spaces;
#[cfg(test)]
mod walking;
