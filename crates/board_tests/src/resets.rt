//! Resets while events wait: what each strikes, and what survives it.

use crate::by_hand::*;
use crate::calls::*;
use bank::Bank;
use board::board::Board;
use reader_tests::pair::Pair;
use std::process::Abort;

/// GEO 3, crate 5, the thresholds 7 and 8. Two gates were vetoed, then three events stored: they have the numbers
/// 2, 3 and 4.
fn prepares<B: Bank>(rt: &impl Abort, bank: &mut B) {
    writes(rt, bank, GEO, 3);
    writes(rt, bank, CRATE, 5);
    writes(rt, bank, 0x108A, 7);
    writes(rt, bank, 0x1092, 8);
    for _ in 0..2 {
        gates(rt, bank, 1, &[200, 300], Err(21));
    }
    for _ in 0..3 {
        gates(rt, bank, 0, &[200, 300], Ok(Some(2)));
    }
    waits(rt, bank, 3);
    counts(rt, bank, 5);
}

/// Such an event is drawn.
fn draws_event<B: Bank>(rt: &impl Abort, bank: &mut B, crate_number: u8, number: u32) {
    draws(
        rt,
        bank,
        &[
            header(3, crate_number, 2),
            datum(3, 5, 200),
            datum(3, 9, 300),
            end(3, number),
        ],
    );
}

/// GEO and the thresholds are as they were set.
fn survives<B: Bank>(rt: &impl Abort, bank: &B) {
    reads(rt, bank, GEO, Ok(3));
    reads(rt, bank, 0x108A, Ok(7));
    reads(rt, bank, 0x1092, Ok(8));
}

/// All events were struck by a data reset, which left this mode and this counter.
fn is_reset<B: Bank>(rt: &impl Abort, bank: &mut B, mode: u16, counter: u32) {
    survives(rt, bank);
    reads(rt, bank, CRATE, Ok(5));
    reads(rt, bank, MODE, Ok(mode));
    reads(rt, bank, STATUS, Ok(4));
    counts(rt, bank, counter);
    draws_nothing(rt, bank);
    refuses(rt, bank, SKIP, 0, 26);
}

/// The counter stays, and goes on while CLEAR DATA stands.
#[test]
fn data_reset_under_all_trg(rt: HostRuntime) {
    let mut board = Board::new(Pair);
    prepares(&rt, &mut board);
    writes(&rt, &mut board, MODE, CLEAR_DATA);
    is_reset(&rt, &mut board, 0x4884, 5);
    gates(&rt, &mut board, 0, &[200, 300], Err(22));
    is_reset(&rt, &mut board, 0x4884, 6);
    writes(&rt, &mut board, MODE_CLEAR, CLEAR_DATA);
    reads(&rt, &board, STATUS, Ok(0));
    counts(&rt, &board, 6);
    gates(&rt, &mut board, 0, &[200, 300], Ok(Some(2)));
    draws_event(&rt, &mut board, 5, 6);
    draws_nothing(&rt, &mut board);
}

/// The counter becomes 0, and stays so while CLEAR DATA stands.
#[test]
fn data_reset_without_all_trg(rt: HostRuntime) {
    let mut board = Board::new(Pair);
    prepares(&rt, &mut board);
    writes(&rt, &mut board, MODE_CLEAR, ALL_TRG);
    waits(&rt, &board, 3);
    counts(&rt, &board, 5);
    writes(&rt, &mut board, MODE, CLEAR_DATA);
    is_reset(&rt, &mut board, 0x0884, 0);
    gates(&rt, &mut board, 0, &[200, 300], Err(22));
    is_reset(&rt, &mut board, 0x0884, 0);
    writes(&rt, &mut board, MODE_CLEAR, CLEAR_DATA);
    gates(&rt, &mut board, 0, &[200, 300], Ok(Some(2)));
    draws_event(&rt, &mut board, 5, 0);
    counts(&rt, &board, 1);
}

/// The bits are set before ALL TRG is looked at.
#[test]
fn data_reset_that_sets_all_trg(rt: HostRuntime) {
    let mut board = Board::new(Pair);
    prepares(&rt, &mut board);
    writes(&rt, &mut board, MODE_CLEAR, ALL_TRG);
    writes(&rt, &mut board, MODE, CLEAR_DATA | ALL_TRG);
    is_reset(&rt, &mut board, 0x4884, 5);
}

#[test]
fn data_reset_with_other_bits(rt: HostRuntime) {
    let mut board = Board::new(Pair);
    prepares(&rt, &mut board);
    writes(&rt, &mut board, MODE_CLEAR, ALL_TRG);
    writes(&rt, &mut board, MODE, CLEAR_DATA | EMPTY | OFFLINE);
    is_reset(&rt, &mut board, 0x1886, 0);
}

/// Each write that names CLEAR DATA is a data reset, though it stands already; no other write of the mode is one.
#[test]
fn data_reset_while_clear_data_stands(rt: HostRuntime) {
    let mut board = Board::new(Pair);
    prepares(&rt, &mut board);
    writes(&rt, &mut board, MODE, CLEAR_DATA);
    writes(&rt, &mut board, MODE_CLEAR, ALL_TRG);
    is_reset(&rt, &mut board, 0x0884, 5);
    writes(&rt, &mut board, MODE, OVER_RANGE);
    is_reset(&rt, &mut board, 0x088C, 5);
    writes(&rt, &mut board, MODE, CLEAR_DATA);
    is_reset(&rt, &mut board, 0x088C, 0);
}

#[test]
fn mode_writes_that_reset_nothing(rt: HostRuntime) {
    let mut board = Board::new(Pair);
    prepares(&rt, &mut board);
    refuses(&rt, &mut board, MODE, CLEAR_DATA | 1, 6);
    refuses(&rt, &mut board, MODE, CLEAR_DATA | STEP, 6);
    refuses(&rt, &mut board, MODE_CLEAR, CLEAR_DATA | 1, 6);
    writes(&rt, &mut board, MODE_CLEAR, CLEAR_DATA | ALL_TRG);
    writes(&rt, &mut board, MODE, OFFLINE | OVER_RANGE);
    writes(&rt, &mut board, MODE, 0);
    survives(&rt, &board);
    counts(&rt, &board, 5);
    for number in [2, 3, 4] {
        draws_event(&rt, &mut board, 5, number);
    }
    draws_nothing(&rt, &mut board);
}

/// Mode, crate and counter are as at power-on, whatever the value and the mode before.
fn resets_all<B: Bank>(rt: &impl Abort, bank: &mut B, mode: u16, value: u16) {
    writes(rt, bank, COUNTER_RESET, 0);
    prepares(rt, bank);
    writes(rt, bank, MODE_CLEAR, 0x4080);
    writes(rt, bank, MODE, mode);
    writes(rt, bank, SOFTWARE_RESET, value);
    survives(rt, bank);
    reads(rt, bank, MODE, Ok(0x4880));
    reads(rt, bank, CRATE, Ok(0));
    reads(rt, bank, STATUS, Ok(0));
    counts(rt, bank, 0);
    draws_nothing(rt, bank);
    gates(rt, bank, 0, &[200, 300], Ok(Some(2)));
    draws_event(rt, bank, 0, 0);
}

#[test]
fn software_reset(rt: HostRuntime) {
    let mut board = Board::new(Pair);
    for value in [0, 1, 0xFFFF] {
        for mode in [0x0000, 0x4080, 0x0002, 0x0004, 0x509E] {
            resets_all(&rt, &mut board, mode, value);
        }
    }
}

/// A full buffer is struck as any other.
#[test]
fn resets_of_a_full_buffer(rt: HostRuntime) {
    let mut board = Board::new(Pair);
    for (offset, value) in [(MODE, CLEAR_DATA), (SOFTWARE_RESET, 0)] {
        for _ in 0..32 {
            gates(&rt, &mut board, 0, &[200, 300], Ok(Some(2)));
        }
        reads(&rt, &board, STATUS, Ok(5));
        writes(&rt, &mut board, offset, value);
        draws_nothing(&rt, &mut board);
        writes(&rt, &mut board, MODE_CLEAR, CLEAR_DATA);
    }
    gates(&rt, &mut board, 0, &[200, 300], Ok(Some(2)));
    waits(&rt, &board, 1);
}

/// The events stay, with the numbers that they have.
#[test]
fn counter_reset(rt: HostRuntime) {
    for value in [0, 1, 0xFFFF] {
        let mut board = Board::new(Pair);
        prepares(&rt, &mut board);
        writes(&rt, &mut board, MODE, OVER_RANGE);
        writes(&rt, &mut board, COUNTER_RESET, value);
        survives(&rt, &board);
        reads(&rt, &board, CRATE, Ok(5));
        reads(&rt, &board, MODE, Ok(0x4888));
        reads(&rt, &board, STATUS, Ok(1));
        counts(&rt, &board, 0);
        waits(&rt, &board, 3);
        gates(&rt, &mut board, 0, &[200, 300], Ok(Some(2)));
        for number in [2, 3, 4, 0] {
            draws_event(&rt, &mut board, 5, number);
        }
        draws_nothing(&rt, &mut board);
        counts(&rt, &board, 1);
    }
}

/// A skip takes the first event alone.
#[test]
fn skip(rt: HostRuntime) {
    let mut board = Board::new(Pair);
    prepares(&rt, &mut board);
    writes(&rt, &mut board, SKIP, 0);
    survives(&rt, &board);
    reads(&rt, &board, CRATE, Ok(5));
    reads(&rt, &board, MODE, Ok(0x4880));
    counts(&rt, &board, 5);
    waits(&rt, &board, 2);
    draws_event(&rt, &mut board, 5, 3);
    draws_event(&rt, &mut board, 5, 4);
    draws_nothing(&rt, &mut board);
}

/// Events are read, skipped and drawn under OFFLINE as ever.
#[test]
fn offline(rt: HostRuntime) {
    let mut board = Board::new(Pair);
    prepares(&rt, &mut board);
    writes(&rt, &mut board, MODE, OFFLINE);
    waits(&rt, &board, 3);
    writes(&rt, &mut board, SKIP, 0);
    draws_event(&rt, &mut board, 5, 3);
    gates(&rt, &mut board, 0, &[200, 300], Err(23));
    draws_event(&rt, &mut board, 5, 4);
    draws_nothing(&rt, &mut board);
    counts(&rt, &board, 6);
}
