//! Which readings are kept, and how each is marked.

use crate::by_hand::*;
use crate::calls::*;
use bank::Bank;
use board::board::Board;
use front_ends::charge::Charge;
use front_ends::time::Time;
use reader_tests::pair::Pair;
use std::process::Abort;

/// Tag 5 has this threshold, and every other is killed.
fn sets_threshold<B: Bank>(rt: &impl Abort, bank: &mut B, threshold: u16) {
    kills_all(rt, bank);
    writes(rt, bank, THRESHOLDS + 10, threshold);
}

/// Of a gate with this reading in every slot, the reading of tag 5 is kept, as this datum.
fn keeps<B: Bank>(rt: &impl Abort, bank: &mut B, reading: u16, count: u16, marks: u32) {
    writes(rt, bank, COUNTER_RESET, 0);
    gates(rt, bank, 0, &[reading; 32], Ok(Some(1)));
    draws(
        rt,
        bank,
        &[header(31, 0, 1), datum(31, 5, count) | marks, end(31, 0)],
    );
}

/// Of such a gate nothing is kept: it stores nothing, and is counted.
fn drops<B: Bank>(rt: &impl Abort, bank: &mut B, reading: u16) {
    writes(rt, bank, COUNTER_RESET, 0);
    gates(rt, bank, 0, &[reading; 32], Ok(None));
    waits(rt, bank, 0);
    counts(rt, bank, 1);
}

/// The floor of the threshold, and the highest count under it.
fn has_floor<B: Bank>(rt: &impl Abort, bank: &mut B, threshold: u16, under: u16, floor: u16) {
    sets_threshold(rt, bank, threshold);
    for reading in [0, under] {
        drops(rt, bank, reading);
    }
    for reading in [floor, 4095] {
        keeps(rt, bank, reading, reading, 0);
    }
    writes(rt, bank, MODE, LOW_THRESHOLD);
    for reading in [0, under] {
        keeps(rt, bank, reading, reading, UNDER);
    }
    for reading in [floor, 4095] {
        keeps(rt, bank, reading, reading, 0);
    }
    writes(rt, bank, MODE_CLEAR, LOW_THRESHOLD);
}

#[test]
fn floors_of_a_time_board(rt: HostRuntime) {
    let mut board = Board::new(Time);
    has_floor(&rt, &mut board, 1, 15, 16);
    has_floor(&rt, &mut board, 7, 111, 112);
    has_floor(&rt, &mut board, 255, 4079, 4080);
    writes(&rt, &mut board, MODE_CLEAR, 0x0080);
    has_floor(&rt, &mut board, 7, 111, 112);
}

#[test]
fn floors_of_a_charge_board(rt: HostRuntime) {
    let mut board = Board::new(Charge);
    has_floor(&rt, &mut board, 1, 15, 16);
    has_floor(&rt, &mut board, 7, 111, 112);
    has_floor(&rt, &mut board, 255, 4079, 4080);
    writes(&rt, &mut board, MODE, STEP);
    has_floor(&rt, &mut board, 1, 1, 2);
    has_floor(&rt, &mut board, 7, 13, 14);
    has_floor(&rt, &mut board, 255, 509, 510);
    writes(&rt, &mut board, MODE_CLEAR, STEP);
    has_floor(&rt, &mut board, 7, 111, 112);
}

/// No count is under a threshold of 0.
#[test]
fn threshold_0(rt: HostRuntime) {
    let mut board = Board::new(Time);
    sets_threshold(&rt, &mut board, 0);
    keeps(&rt, &mut board, 0, 0, 0);
    keeps(&rt, &mut board, 1, 1, 0);
    writes(&rt, &mut board, MODE, LOW_THRESHOLD);
    keeps(&rt, &mut board, 0, 0, 0);
}

/// Nothing is kept of a slot that is killed, whatever its level and the mode.
#[test]
fn killed_slots(rt: HostRuntime) {
    let mut board = Board::new(Time);
    for threshold in [256, 256 + 7, 511] {
        sets_threshold(&rt, &mut board, threshold);
        writes(&rt, &mut board, MODE_CLEAR, OVER_RANGE | LOW_THRESHOLD);
        for reading in [0, 111, 4095, 0x1FFF] {
            drops(&rt, &mut board, reading);
        }
        writes(&rt, &mut board, MODE, OVER_RANGE | LOW_THRESHOLD);
        for reading in [0, 111, 4095, 0x1FFF] {
            drops(&rt, &mut board, reading);
        }
    }
    sets_threshold(&rt, &mut board, 255);
    keeps(&rt, &mut board, 0, 0, UNDER);
}

/// Bit 12 tells of an overflow, and a count of 4095 without it is a figure.
#[test]
fn overflows(rt: HostRuntime) {
    let mut board = Board::new(Time);
    sets_threshold(&rt, &mut board, 0);
    keeps(&rt, &mut board, 0x0FFF, 4095, 0);
    for reading in [0x1000, 0x1001, 0x1FFF] {
        drops(&rt, &mut board, reading);
    }
    writes(&rt, &mut board, MODE, OVER_RANGE);
    keeps(&rt, &mut board, 0x0FFF, 4095, 0);
    keeps(&rt, &mut board, 0x1000, 0, OVER);
    keeps(&rt, &mut board, 0x1064, 100, OVER);
    keeps(&rt, &mut board, 0x1FFF, 4095, OVER);
}

/// A reading that overflowed with a count under threshold needs both bits.
#[test]
fn overflows_under_threshold(rt: HostRuntime) {
    let mut board = Board::new(Time);
    sets_threshold(&rt, &mut board, 7);
    drops(&rt, &mut board, 0x106F);
    drops(&rt, &mut board, 0x1070);
    writes(&rt, &mut board, MODE, OVER_RANGE);
    drops(&rt, &mut board, 0x106F);
    keeps(&rt, &mut board, 0x1070, 112, OVER);
    writes(&rt, &mut board, MODE, LOW_THRESHOLD);
    keeps(&rt, &mut board, 0x106F, 111, OVER | UNDER);
    keeps(&rt, &mut board, 0x1070, 112, OVER);
    writes(&rt, &mut board, MODE_CLEAR, OVER_RANGE);
    drops(&rt, &mut board, 0x106F);
    drops(&rt, &mut board, 0x1070);
    keeps(&rt, &mut board, 0x006F, 111, UNDER);
}

/// With EMPTY an event of two words is stored where nothing is kept, and nothing else is changed by it.
#[test]
fn nothing_kept(rt: HostRuntime) {
    let mut board = Board::new(Pair);
    gates(&rt, &mut board, 0, &[0x1001, 0x1FFF], Ok(None));
    draws_nothing(&rt, &mut board);
    counts(&rt, &board, 1);
    writes(&rt, &mut board, MODE, EMPTY);
    gates(&rt, &mut board, 0, &[0x1001, 0x1FFF], Ok(Some(0)));
    gates(&rt, &mut board, 0, &[0x1001, 4], Ok(Some(1)));
    gates(&rt, &mut board, 0, &[3, 4], Ok(Some(2)));
    writes(&rt, &mut board, MODE_CLEAR, EMPTY);
    gates(&rt, &mut board, 0, &[0x1001, 0x1FFF], Ok(None));
    waits(&rt, &board, 3);
    counts(&rt, &board, 5);
    draws(&rt, &mut board, &[0xFA00_0000, 0xFC00_0001]);
    draws(
        &rt,
        &mut board,
        &[header(31, 0, 1), datum(31, 9, 4), end(31, 2)],
    );
    draws_pair(&rt, &mut board, [3, 4], 3);
    draws_nothing(&rt, &mut board);
}

/// EMPTY stores no gate that is refused.
#[test]
fn nothing_kept_of_refused_gates(rt: HostRuntime) {
    let mut board = Board::new(Pair);
    writes(&rt, &mut board, MODE, EMPTY);
    gates(&rt, &mut board, 1, &[0x1000; 2], Err(21));
    gates(&rt, &mut board, 2, &[0x1000; 2], Err(25));
    gates(&rt, &mut board, 0, &[0x2000; 2], Err(3));
    draws_nothing(&rt, &mut board);
}
