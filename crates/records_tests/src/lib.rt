//! Tests of whole runs, from bytes to records and to what is said of them. What each expects is written out by hand.
#![tactic(auto)]

#[cfg(test)]
mod faults;
#[cfg(test)]
mod full_size;
#[cfg(test)]
mod inputs;
#[cfg(test)]
mod rooms;
#[cfg(test)]
mod runs;
