//! The words of events: what they hold, and their order.

use crate::by_hand::*;
use crate::calls::*;
use bank::Bank;
use board::board::Board;
use front_ends::charge::Charge;
use front_ends::time::Time;
use reader_tests::pair::Pair;
use std::array;
use std::process::Abort;
use std::test::Fail;

/// Slot i reads 100 + i.
fn slot_counts() -> [u16; 32] {
    array::from_fn(|i| 100 + i as u16)
}

/// GEO 3, crate 5, seven gates before this one; tag 4 counts 100, tag 5 counts 800, and the others are killed.
#[test]
fn two_readings(rt: HostRuntime) {
    let mut board = Board::new(Time);
    writes(&rt, &mut board, GEO, 3);
    writes(&rt, &mut board, CRATE, 5);
    kills_all(&rt, &mut board);
    writes(&rt, &mut board, 0x1088, 0);
    writes(&rt, &mut board, 0x108A, 0);
    for _ in 0..7 {
        gates(&rt, &mut board, 1, &[0; 32], Err(21));
    }
    counts(&rt, &board, 7);
    let mut readings = [2000; 32];
    readings[4] = 100;
    readings[5] = 800;
    gates(&rt, &mut board, 0, &readings, Ok(Some(2)));
    draws(
        &rt,
        &mut board,
        &[0x1A05_0200, 0x1804_0064, 0x1805_0320, 0x1C00_0007],
    );
}

/// An event keeps what stood at its gate, whatever is set before it is drawn.
#[test]
fn settings_of_the_gate(rt: HostRuntime) {
    let mut board = Board::new(Pair);
    writes(&rt, &mut board, GEO, 0);
    writes(&rt, &mut board, CRATE, 255);
    writes(&rt, &mut board, 0x108A, 7);
    writes(&rt, &mut board, MODE, LOW_THRESHOLD | OVER_RANGE);
    gates(&rt, &mut board, 0, &[111, 0x1123], Ok(Some(2)));
    writes(&rt, &mut board, GEO, 31);
    writes(&rt, &mut board, CRATE, 1);
    writes(&rt, &mut board, 0x108A, KILL);
    writes(&rt, &mut board, 0x1092, 255);
    writes(&rt, &mut board, COUNTER_RESET, 0);
    writes(&rt, &mut board, MODE_CLEAR, LOW_THRESHOLD | OVER_RANGE);
    gates(&rt, &mut board, 0, &[222, 4080], Ok(Some(1)));
    draws(
        &rt,
        &mut board,
        &[
            header(0, 255, 2),
            datum(0, 5, 111) | UNDER,
            datum(0, 9, 0x123) | OVER,
            end(0, 0),
        ],
    );
    draws(
        &rt,
        &mut board,
        &[header(31, 1, 1), datum(31, 9, 4080), end(31, 0)],
    );
}

/// On a time board the words come by tag.
#[test]
fn the_order_of_a_time_board(rt: HostRuntime) -> Result<(), Fail> {
    let mut board = Board::new(Time);
    let mut words = vec![in rt.alloc(); header(31, 0, 32)]?;
    for tag in 0..32 {
        words.push(datum(31, tag, 100 + u16::from(tag)))?;
    }
    words.push(end(31, 0))?;
    gates(&rt, &mut board, 0, &slot_counts(), Ok(Some(32)));
    draws(&rt, &mut board, &words);
    Ok(())
}

/// On a charge board the tags 0 and 16, 1 and 17, and so on to 15 and 31, take turns.
#[test]
fn the_order_of_a_charge_board(rt: HostRuntime) -> Result<(), Fail> {
    let mut board = Board::new(Charge);
    let mut words = vec![in rt.alloc(); header(31, 0, 32)]?;
    for tag in 0..16 {
        words.push(datum(31, tag, 100 + 2 * u16::from(tag)))?;
        words.push(datum(31, 16 + tag, 101 + 2 * u16::from(tag)))?;
    }
    words.push(end(31, 0))?;
    gates(&rt, &mut board, 0, &slot_counts(), Ok(Some(32)));
    draws(&rt, &mut board, &words);
    Ok(())
}

/// The threshold of a tag acts on the slot of that tag: with all others killed, this count comes.
fn acts_on<B: Bank>(rt: &impl Abort, bank: &mut B, tag: u8, count: u16) {
    let offset = THRESHOLDS.wrapping_add(2 * u16::from(tag));
    writes(rt, bank, offset, 0);
    writes(rt, bank, COUNTER_RESET, 0);
    gates(rt, bank, 0, &slot_counts(), Ok(Some(1)));
    draws(
        rt,
        bank,
        &[header(31, 0, 1), datum(31, tag, count), end(31, 0)],
    );
    writes(rt, bank, offset, KILL);
}

#[test]
fn thresholds_go_by_tag(rt: HostRuntime) {
    let mut time = Board::new(Time);
    kills_all(&rt, &mut time);
    for tag in 0..32 {
        acts_on(&rt, &mut time, tag, 100 + u16::from(tag));
    }
    let mut charge = Board::new(Charge);
    kills_all(&rt, &mut charge);
    acts_on(&rt, &mut charge, 16, 101);
    for tag in 0..16 {
        acts_on(&rt, &mut charge, tag, 100 + 2 * u16::from(tag));
        acts_on(&rt, &mut charge, 16 + tag, 101 + 2 * u16::from(tag));
    }
}

/// The slots that are killed leave no gap.
#[test]
fn some_slots_of_a_charge_board(rt: HostRuntime) {
    let mut board = Board::new(Charge);
    kills_all(&rt, &mut board);
    for tag in [31, 16, 2, 17] {
        writes(&rt, &mut board, THRESHOLDS + 2 * tag, 0);
    }
    gates(&rt, &mut board, 0, &slot_counts(), Ok(Some(4)));
    draws(
        &rt,
        &mut board,
        &[
            header(31, 0, 4),
            datum(31, 16, 101),
            datum(31, 17, 103),
            datum(31, 2, 104),
            datum(31, 31, 131),
            end(31, 0),
        ],
    );
}
