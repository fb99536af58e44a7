//! Gates: what each is refused for, which reason comes first, and which gates are counted.

use crate::by_hand::*;
use crate::calls::*;
use bank::Bank;
use board::board::Board;
use front_ends::charge::Charge;
use front_ends::time::Time;
use reader_tests::pair::Pair;
use std::process::Abort;

/// The gate is refused by this number, the counter then is this, and nothing else changed.
fn turns_away<B: Bank>(
    rt: &impl Abort,
    bank: &mut B,
    signal: u8,
    readings: &[u16],
    number: u8,
    counter: u32,
) {
    let waiting = waiting_at(bank, 0);
    let status = read_at(bank, 0, STATUS);
    let mode = read_at(bank, 0, MODE);
    gates(rt, bank, signal, readings, Err(number));
    counts(rt, bank, counter);
    assert_eq!(rt; waiting_at(bank, 0), waiting);
    assert_eq!(rt; read_at(bank, 0, STATUS), status);
    assert_eq!(rt; read_at(bank, 0, MODE), mode);
}

fn takes_32<B: Bank>(rt: &impl Abort, bank: &mut B) {
    let readings = [100; 33];
    turns_away(rt, bank, 0, &readings[0..31], 2, 0);
    turns_away(rt, bank, 0, &readings, 2, 0);
    turns_away(rt, bank, 0, &readings[0..2], 2, 0);
    turns_away(rt, bank, 0, &[], 2, 0);
    gates(rt, bank, 0, &readings[0..32], Ok(Some(32)));
    counts(rt, bank, 1);
    waits(rt, bank, 1);
}

#[test]
fn one_reading_for_each_slot(rt: HostRuntime) {
    takes_32(&rt, &mut Board::new(Time));
    takes_32(&rt, &mut Board::new(Charge));
    let mut board = Board::new(Pair);
    turns_away(&rt, &mut board, 0, &[], 2, 0);
    turns_away(&rt, &mut board, 0, &[100], 2, 0);
    turns_away(&rt, &mut board, 0, &[100; 3], 2, 0);
    turns_away(&rt, &mut board, 0, &[100; 32], 2, 0);
    gates(&rt, &mut board, 0, &[100; 2], Ok(Some(2)));
}

/// Bits 15 to 13 are zero in every slot, also in one that is killed.
#[test]
fn bits_that_must_be_0(rt: HostRuntime) {
    let mut board = Board::new(Pair);
    writes(&rt, &mut board, MODE, OVER_RANGE);
    writes(&rt, &mut board, 0x1092, KILL);
    for reading in [0x2000, 0x2064, 0x3FFF, 0x4000, 0x8000, 0xFFFF] {
        turns_away(&rt, &mut board, 0, &[reading, 0], 3, 0);
        turns_away(&rt, &mut board, 0, &[0, reading], 3, 0);
    }
    gates(&rt, &mut board, 0, &[0x1FFF, 0x1FFF], Ok(Some(1)));
    draws(
        &rt,
        &mut board,
        &[header(31, 0, 1), datum(31, 5, 0xFFF) | OVER, end(31, 0)],
    );
}

#[test]
fn bits_that_must_be_0_in_the_last_slot(rt: HostRuntime) {
    let mut board = Board::new(Charge);
    writes(&rt, &mut board, MODE, OVER_RANGE);
    let mut readings = [0; 32];
    readings[31] = 0x2000;
    turns_away(&rt, &mut board, 0, &readings, 3, 0);
    readings[31] = 0x1FFF;
    gates(&rt, &mut board, 0, &readings, Ok(Some(32)));
}

#[test]
fn signals(rt: HostRuntime) {
    let mut board = Board::new(Pair);
    turns_away(&rt, &mut board, 3, &[100; 2], 4, 0);
    turns_away(&rt, &mut board, 4, &[100; 2], 4, 0);
    turns_away(&rt, &mut board, 255, &[100; 2], 4, 0);
    turns_away(&rt, &mut board, 1, &[100; 2], 21, 1);
    turns_away(&rt, &mut board, 2, &[100; 2], 25, 2);
    waits(&rt, &board, 0);
    gates(&rt, &mut board, 0, &[100; 2], Ok(Some(2)));
    counts(&rt, &board, 3);
}

/// A gate that is not sound is not counted, whatever else stands against it.
fn is_unsound<B: Bank>(rt: &impl Abort, bank: &mut B, counter: u32) {
    for signal in [0, 1, 2, 3, 255] {
        turns_away(rt, bank, signal, &[0x2000], 2, counter);
        turns_away(rt, bank, signal, &[0x2000; 3], 2, counter);
        turns_away(rt, bank, signal, &[], 2, counter);
        turns_away(rt, bank, signal, &[0, 0x2000], 3, counter);
        turns_away(rt, bank, signal, &[0x8000, 0], 3, counter);
    }
    turns_away(rt, bank, 3, &[100; 2], 4, counter);
    turns_away(rt, bank, 255, &[100; 2], 4, counter);
}

/// The counter after each gate: a veto, a fast clear, one under OFFLINE, one under CLEAR DATA, one that stores nothing,
/// 32 that store, and one more.
fn counted<B: Bank>(rt: &impl Abort, bank: &mut B, counters: [u32; 7]) {
    is_unsound(rt, bank, 0);
    turns_away(rt, bank, 1, &[100; 2], 21, counters[0]);
    turns_away(rt, bank, 2, &[100; 2], 25, counters[1]);
    writes(rt, bank, MODE, OFFLINE);
    is_unsound(rt, bank, counters[1]);
    turns_away(rt, bank, 0, &[100; 2], 23, counters[2]);
    writes(rt, bank, MODE_CLEAR, OFFLINE);
    writes(rt, bank, MODE, CLEAR_DATA);
    is_unsound(rt, bank, counters[2]);
    turns_away(rt, bank, 0, &[100; 2], 22, counters[3]);
    writes(rt, bank, MODE_CLEAR, CLEAR_DATA);
    gates(rt, bank, 0, &[0x1000; 2], Ok(None));
    counts(rt, bank, counters[4]);
    for _ in 0..32 {
        gates(rt, bank, 0, &[100; 2], Ok(Some(2)));
    }
    counts(rt, bank, counters[5]);
    is_unsound(rt, bank, counters[5]);
    turns_away(rt, bank, 0, &[100; 2], 24, counters[6]);
}

/// ALL TRG is 1 at power-on: each sound gate is counted.
#[test]
fn all_sound_gates_are_counted(rt: HostRuntime) {
    counted(&rt, &mut Board::new(Pair), [1, 2, 3, 4, 5, 37, 38]);
}

/// ALL TRG is 0: each accepted gate is counted, whether it stores an event or not.
#[test]
fn accepted_gates_are_counted(rt: HostRuntime) {
    let mut board = Board::new(Pair);
    writes(&rt, &mut board, MODE_CLEAR, ALL_TRG);
    counted(&rt, &mut board, [0, 0, 0, 0, 1, 33, 33]);
}

/// The reasons that stand against a sound gate: with a veto, without a signal, with a fast clear.
fn first_reason<B: Bank>(
    rt: &impl Abort,
    bank: &mut B,
    counter: u32,
    [veto, plain, clear]: [u8; 3],
) {
    is_unsound(rt, bank, counter);
    turns_away(rt, bank, 1, &[100; 2], veto, counter);
    turns_away(rt, bank, 0, &[100; 2], plain, counter);
    turns_away(rt, bank, 2, &[100; 2], clear, counter);
}

#[test]
fn the_first_reason_tells(rt: HostRuntime) {
    let mut board = Board::new(Pair);
    writes(&rt, &mut board, MODE_CLEAR, ALL_TRG);
    writes(&rt, &mut board, MODE, OFFLINE);
    first_reason(&rt, &mut board, 0, [21, 23, 23]);
    writes(&rt, &mut board, MODE, CLEAR_DATA);
    first_reason(&rt, &mut board, 0, [21, 22, 22]);
    writes(&rt, &mut board, MODE_CLEAR, OFFLINE);
    first_reason(&rt, &mut board, 0, [21, 22, 22]);
    writes(&rt, &mut board, MODE_CLEAR, CLEAR_DATA);
    for _ in 0..32 {
        gates(&rt, &mut board, 0, &[100; 2], Ok(Some(2)));
    }
    first_reason(&rt, &mut board, 32, [21, 24, 24]);
    writes(&rt, &mut board, MODE, OFFLINE);
    first_reason(&rt, &mut board, 32, [21, 23, 23]);
}

fn veto<B: Bank>(rt: &impl Abort, bank: &mut B, times: u32) {
    for _ in 0..times {
        gates(rt, bank, 1, &[100; 2], Err(21));
    }
}

/// The counter has 24 bits, of which one register shows 16 and one 8.
#[test]
fn the_counter_goes_round(rt: HostRuntime) {
    let mut board = Board::new(Pair);
    veto(&rt, &mut board, 65535);
    reads(&rt, &board, COUNTER_LOW, Ok(0xFFFF));
    reads(&rt, &board, COUNTER_HIGH, Ok(0));
    veto(&rt, &mut board, 1);
    reads(&rt, &board, COUNTER_LOW, Ok(0));
    reads(&rt, &board, COUNTER_HIGH, Ok(1));
    veto(&rt, &mut board, 16_777_215 - 65536);
    reads(&rt, &board, COUNTER_LOW, Ok(0xFFFF));
    reads(&rt, &board, COUNTER_HIGH, Ok(0x00FF));
    gates(&rt, &mut board, 0, &[1, 2], Ok(Some(2)));
    counts(&rt, &board, 0);
    gates(&rt, &mut board, 0, &[3, 4], Ok(Some(2)));
    counts(&rt, &board, 1);
    draws(
        &rt,
        &mut board,
        &[
            header(31, 0, 2),
            datum(31, 5, 1),
            datum(31, 9, 2),
            0xFCFF_FFFF,
        ],
    );
    draws(
        &rt,
        &mut board,
        &[
            header(31, 0, 2),
            datum(31, 5, 3),
            datum(31, 9, 4),
            0xFC00_0000,
        ],
    );
}
