//! Tests of a script's lines and of what is printed of them. What each expects is written out by hand from the rules.
#![tactic(auto)]

#[cfg(test)]
mod boards;
#[cfg(test)]
mod calls;
#[cfg(test)]
mod gates;
#[cfg(test)]
mod numbers;
#[cfg(test)]
mod replies;
#[cfg(test)]
mod said;
#[cfg(test)]
mod spacing;
