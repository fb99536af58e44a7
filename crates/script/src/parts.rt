//! A line, cut into its parts.

ghost use Rattle.std.specs.Prelude.{◌≡◌, drop, position, ◌==◌};
ghost use Rattle.std.specs.Iterator.{YieldsFirstRef, item_count};
ghost use Rattle.script.specs.Calls.{part_of, first_part, first_number, ended};
ghost use Rattle.script.specs.Parts.{gap, solid, parts, pair_of, split_once, said};

use crate::mistake::{Flaw, Mistake, Place};
use crate::numbers::number_in;
use std::marker::Model;

/// The parts that are still to come: the runs of bytes between spaces and tabs.
#[derive(Drop)]
pub(crate) struct Parts<'a> {
    rest: &'a [u8],
}

impl<'a> Model for Parts<'a> {
    ghost use Rattle.std.specs.Prelude.{ℕ, List};
    ghost use Rattle.script.specs.Parts.{parts};

    ghost Value = { List (List ℕ) };

    ghost view = { λ p. parts p.rest.now };
}

fn is_gap(byte: u8) -> bool
    ensures { result ≡ gap byte }
{
    byte == b' ' || byte == b'\t'
}

// Each search is a function of its own: past a `?` or a second search the check no longer sees what the first one found.

/// Where the first part begins.
fn part_start(bytes: &[u8]) -> Option<usize>
    ensures { result ≡ position solid bytes.now }
{
    bytes.iter().position(|byte| !is_gap(*byte))
}

/// Where the part ends with which the bytes begin, if it ends before them.
fn part_end(bytes: &[u8]) -> Option<usize>
    ensures { result ≡ position gap bytes.now }
{
    bytes.iter().position(|byte| is_gap(*byte))
}

fn place_of(byte: u8, bytes: &[u8]) -> Option<usize>
    ensures { result ≡ position (λ c. c == byte) bytes.now }
{
    bytes.iter().position(|other| *other == byte)
}

impl<'a> Parts<'a> {
    pub(crate) fn of(bytes: &'a [u8]) -> Parts<'a>
        ensures { result ≡ parts bytes.now }
    {
        Parts { rest: bytes }
    }

    /// The next part, which has to stand there.
    pub(crate) fn part(&mut self, place: Place) -> Result<&'a [u8], Mistake>
        ensures is { part_of result ≡ first_part place self.old }
        ensures rest { self.new ≡ drop 1 self.old }
    {
        self.next().ok_or(Mistake::Number(place, Flaw::Missing))
    }

    /// The number that the next part writes.
    pub(crate) fn number(&mut self, place: Place) -> Result<u16, Mistake>
        ensures is { result ≡ first_number place self.old }
        ensures rest { self.new ≡ drop 1 self.old }
    {
        number_in(place, self.part(place)?)
    }

    /// No part is left.
    pub(crate) fn end(&mut self) -> Result<(), Mistake>
        ensures { result ≡ ended self.old }
    {
        match self.next() {
            None => Ok(()),
            Some(_) => Err(Mistake::Surplus),
        }
    }
}

impl<'a> Iterator for Parts<'a> {
    type Item = &'a [u8];

    ghost next_gives = { YieldsFirstRef (λ s. s) };

    ghost remaining = { item_count (λ s. s) };

    fn next(&mut self) -> Option<&'a [u8]> {
        let start = part_start(self.rest)?;
        let begun = &self.rest[start..];
        let (part, rest) = begun.split_at(part_end(begun).unwrap_or(begun.len()));
        self.rest = rest;
        Some(part)
    }
}

/// What stands before the first such byte, and what stands behind it. (The library has it for text only.)
pub(crate) fn split_once(at: u8, bytes: &[u8]) -> Option<(&[u8], &[u8])>
    ensures { pair_of result ≡ split_once at bytes.now }
{
    let place = place_of(at, bytes)?;
    Some((&bytes[..place], &bytes[place + 1..]))
}

/// What the line says: neither its comment nor the carriage return at its end.
pub(crate) fn said_by(line: &[u8]) -> &[u8]
    ensures { result.now ≡ said line.now }
{
    let line = line.strip_suffix(b"\r").unwrap_or(line);
    match split_once(b'#', line) {
        Some((said, _)) => said,
        None => line,
    }
}
