//! The mode word: which bits each kind of board carries, and what setting and clearing leave.

use crate::calls::*;
use bank::Bank;
use board::board::Board;
use front_ends::charge::Charge;
use front_ends::time::Time;
use std::process::Abort;

/// The bits that every board carries, each alone: 1, 2, 3, 4, 7, 12 and 14.
const CARRIED: [u16; 7] = [0x0002, 0x0004, 0x0008, 0x0010, 0x0080, 0x1000, 0x4000];

/// The bits that no board carries: 0, 5, 6, 9, 10, 11, 13 and 15.
const LACKED: [u16; 8] = [
    0x0001, 0x0020, 0x0040, 0x0200, 0x0400, 0x0800, 0x2000, 0x8000,
];

/// The bit is set and cleared, whatever it was, and no other changes.
fn carries<B: Bank>(rt: &impl Abort, bank: &mut B, bit: u16) {
    writes(rt, bank, SOFTWARE_RESET, 0);
    for _ in 0..2 {
        writes(rt, bank, MODE, bit);
        reads(rt, bank, MODE, Ok(0x4880 | bit));
    }
    for _ in 0..2 {
        writes(rt, bank, MODE_CLEAR, bit);
        reads(rt, bank, MODE, Ok(0x4880 & !bit));
    }
    writes(rt, bank, MODE, bit);
    reads(rt, bank, MODE, Ok(0x4880 | bit));
}

/// A value that names the bit is refused, alone or with bits that are carried.
fn lacks<B: Bank>(rt: &impl Abort, bank: &mut B, bit: u16) {
    writes(rt, bank, SOFTWARE_RESET, 0);
    for value in [bit, bit | OFFLINE, bit | 0x509E] {
        refuses(rt, bank, MODE, value, 6);
        refuses(rt, bank, MODE_CLEAR, value, 6);
    }
    reads(rt, bank, MODE, Ok(0x4880));
}

#[test]
fn bits_of_a_time_board(rt: HostRuntime) {
    let mut board = Board::new(Time);
    for bit in CARRIED {
        carries(&rt, &mut board, bit);
    }
    for bit in LACKED {
        lacks(&rt, &mut board, bit);
    }
    lacks(&rt, &mut board, STEP);
}

#[test]
fn bits_of_a_charge_board(rt: HostRuntime) {
    let mut board = Board::new(Charge);
    for bit in CARRIED {
        carries(&rt, &mut board, bit);
    }
    carries(&rt, &mut board, STEP);
    for bit in LACKED {
        lacks(&rt, &mut board, bit);
    }
}

/// Sets all bits that are carried, then clears them: AUTO INCR alone is left.
fn sets_all<B: Bank>(rt: &impl Abort, bank: &mut B, carried: u16, lacked: u16, all: u16) {
    for offset in [MODE, MODE_CLEAR] {
        refuses(rt, bank, offset, 0xFFFF, 6);
        refuses(rt, bank, offset, lacked, 6);
        writes(rt, bank, offset, 0);
        reads(rt, bank, MODE, Ok(0x4880));
    }
    writes(rt, bank, MODE, carried);
    reads(rt, bank, MODE, Ok(all));
    writes(rt, bank, MODE_CLEAR, carried);
    reads(rt, bank, MODE, Ok(0x0800));
    writes(rt, bank, MODE_CLEAR, carried);
    reads(rt, bank, MODE, Ok(0x0800));
}

#[test]
fn all_bits_at_once(rt: HostRuntime) {
    sets_all(&rt, &mut Board::new(Time), 0x509E, 0xAF61, 0x589E);
    sets_all(&rt, &mut Board::new(Charge), 0x519E, 0xAE61, 0x599E);
}

/// Of all values so many are accepted at the offset, the others refused by number 6.
fn accepts<B: Bank>(rt: &impl Abort, bank: &mut B, offset: u16, expected: usize) {
    let refused = (0..=0xFFFF)
        .filter(|value| write_at(bank, 0, offset, *value) == Err(6))
        .count();
    assert_eq!(rt; refused.wrapping_add(expected), 65536);
}

/// A value names any of seven bits, or of eight.
#[test]
fn all_values(rt: HostRuntime) {
    for offset in [MODE, MODE_CLEAR] {
        accepts(&rt, &mut Board::new(Time), offset, 128);
        accepts(&rt, &mut Board::new(Charge), offset, 256);
    }
}

#[test]
fn sets_and_clears_in_turn(rt: HostRuntime) {
    let mut board = Board::new(Charge);
    writes(&rt, &mut board, MODE, 0x0118);
    reads(&rt, &board, MODE, Ok(0x4998));
    writes(&rt, &mut board, MODE_CLEAR, 0x4008);
    reads(&rt, &board, MODE, Ok(0x0990));
    writes(&rt, &mut board, MODE, 0x1002);
    reads(&rt, &board, MODE, Ok(0x1992));
    refuses(&rt, &mut board, MODE_CLEAR, 0x1992, 6);
    writes(&rt, &mut board, MODE_CLEAR, 0x1092);
    reads(&rt, &board, MODE, Ok(0x0900));
    writes(&rt, &mut board, MODE, 0x4080);
    reads(&rt, &board, MODE, Ok(0x4980));
}
