//! Tests of a board that plays, all through the calls of a bank. What each expects is written out by hand from the
//! rules.
#![tactic(auto)]

#[cfg(test)]
mod buffers;
#[cfg(test)]
mod by_hand;
#[cfg(test)]
mod calls;
#[cfg(test)]
mod events;
#[cfg(test)]
mod gates;
#[cfg(test)]
mod judging;
#[cfg(test)]
mod modes;
#[cfg(test)]
mod power_on;
#[cfg(test)]
mod registers;
#[cfg(test)]
mod resets;
#[cfg(test)]
mod stations;
