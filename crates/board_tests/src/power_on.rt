//! A board that was just switched on.

use crate::calls::*;
use bank::Bank;
use board::board::Board;
use front_ends::charge::Charge;
use front_ends::time::Time;
use reader_tests::pair::Pair;
use std::process::Abort;

fn is_new<B: Bank>(rt: &impl Abort, bank: &mut B) {
    assert_eq!(rt; bank.stations(), 1);
    reads(rt, bank, GEO, Ok(31));
    reads(rt, bank, STATUS, Ok(0));
    reads(rt, bank, MODE, Ok(0x4880));
    reads(rt, bank, CRATE, Ok(0));
    counts(rt, bank, 0);
    draws_nothing(rt, bank);
}

fn has_all_thresholds<B: Bank>(rt: &impl Abort, bank: &B) {
    for tag in 0..32 {
        reads(rt, bank, THRESHOLDS + 2 * tag, Ok(0));
    }
}

#[test]
fn a_time_board(rt: HostRuntime) {
    let mut board = Board::new(Time);
    is_new(&rt, &mut board);
    has_all_thresholds(&rt, &board);
}

#[test]
fn a_charge_board(rt: HostRuntime) {
    let mut board = Board::new(Charge);
    is_new(&rt, &mut board);
    has_all_thresholds(&rt, &board);
}

#[test]
fn a_board_of_two_slots(rt: HostRuntime) {
    let mut board = Board::new(Pair);
    is_new(&rt, &mut board);
    for tag in 0..32 {
        let expected = if tag == 5 || tag == 9 { Ok(0) } else { Err(5) };
        reads(&rt, &board, THRESHOLDS + 2 * tag, expected);
    }
}
