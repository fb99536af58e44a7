//! Registers: where they stand, which access each has, and which values each takes.

use crate::calls::*;
use bank::Bank;
use board::board::Board;
use front_ends::charge::Charge;
use front_ends::time::Time;
use reader_tests::pair::Pair;
use std::process::Abort;

/// Values that are shown once written, the last of them the highest, and values over the limit.
fn takes<B: Bank>(rt: &impl Abort, bank: &mut B, offset: u16, fit: [u16; 4], over: [u16; 5]) {
    for value in fit {
        writes(rt, bank, offset, value);
        reads(rt, bank, offset, Ok(value));
    }
    for value in over {
        refuses(rt, bank, offset, value, 6);
        reads(rt, bank, offset, Ok(fit[3]));
    }
}

fn takes_up_to_its_limit<B: Bank>(rt: &impl Abort, bank: &mut B, tags: [u16; 2]) {
    takes(
        rt,
        bank,
        GEO,
        [0, 1, 16, 31],
        [32, 33, 0x011F, 0x8000, 0xFFFF],
    );
    takes(
        rt,
        bank,
        CRATE,
        [0, 1, 128, 255],
        [256, 257, 0x01FF, 0x8000, 0xFFFF],
    );
    for tag in tags {
        takes(
            rt,
            bank,
            tag,
            [0, 255, 256, 511],
            [512, 513, 1023, 0x8000, 0xFFFF],
        );
    }
}

#[test]
fn values_up_to_the_limit(rt: HostRuntime) {
    takes_up_to_its_limit(&rt, &mut Board::new(Time), [0x1080, 0x10BE]);
    takes_up_to_its_limit(&rt, &mut Board::new(Charge), [0x1080, 0x10BE]);
    takes_up_to_its_limit(&rt, &mut Board::new(Pair), [0x108A, 0x1092]);
}

/// Every register keeps what was written to it, whatever is written to the others.
fn keeps_apart<B: Bank>(rt: &impl Abort, bank: &mut B) {
    for tag in 0..32 {
        writes(rt, bank, THRESHOLDS + 2 * tag, 3 + 16 * tag);
    }
    writes(rt, bank, GEO, 3);
    writes(rt, bank, CRATE, 5);
    for tag in 0..32 {
        reads(rt, bank, THRESHOLDS + 2 * tag, Ok(3 + 16 * tag));
    }
    reads(rt, bank, GEO, Ok(3));
    reads(rt, bank, CRATE, Ok(5));
    reads(rt, bank, MODE, Ok(0x4880));
    reads(rt, bank, STATUS, Ok(0));
    counts(rt, bank, 0);
}

#[test]
fn registers_are_apart(rt: HostRuntime) {
    keeps_apart(&rt, &mut Board::new(Time));
    keeps_apart(&rt, &mut Board::new(Charge));
}

#[test]
fn registers_that_cannot_be_read(rt: HostRuntime) {
    let board = Board::new(Time);
    for offset in [SOFTWARE_RESET, SKIP, MODE_CLEAR, COUNTER_RESET] {
        reads(&rt, &board, offset, Err(5));
    }
}

#[test]
fn registers_that_cannot_be_written(rt: HostRuntime) {
    let mut board = Board::new(Time);
    gates(&rt, &mut board, 0, &[100; 32], Ok(Some(32)));
    for offset in [STATUS, COUNTER_LOW, COUNTER_HIGH] {
        for value in [0, 1, 0xFFFF] {
            refuses(&rt, &mut board, offset, value, 5);
        }
    }
    counts(&rt, &board, 1);
    waits(&rt, &board, 1);
}

/// Nothing stands beside, before and behind the registers, and at no odd offset.
fn has_nothing_elsewhere<B: Bank>(rt: &impl Abort, bank: &mut B) {
    for offset in [
        0x0000, 0x0002, 0x1000, 0x1001, 0x1003, 0x1004, 0x100D, 0x100F, 0x1017, 0x1025, 0x1027,
        0x1029, 0x1030, 0x1033, 0x1035, 0x1036, 0x103D, 0x1041, 0x107E, 0x107F, 0x1081, 0x1083,
        0x10BD, 0x10BF, 0x10C0, 0x1102, 0x2002, 0x9002, 0xFFFE, 0xFFFF,
    ] {
        reads(rt, bank, offset, Err(5));
        refuses(rt, bank, offset, 0, 5);
        refuses(rt, bank, offset, 0xFFFF, 5);
    }
}

#[test]
fn offsets_without_a_register(rt: HostRuntime) {
    has_nothing_elsewhere(&rt, &mut Board::new(Time));
    has_nothing_elsewhere(&rt, &mut Board::new(Charge));
    has_nothing_elsewhere(&rt, &mut Board::new(Pair));
    let mut board = Board::new(Time);
    writes(&rt, &mut board, 0x1080, 511);
    writes(&rt, &mut board, 0x10BE, 511);
    reads(&rt, &board, 0x1080, Ok(511));
    reads(&rt, &board, 0x10BE, Ok(511));
}

/// Of all offsets so many answer to a read, and so many to a write, the others by number 5.
fn answers<B: Bank>(rt: &impl Abort, bank: &mut B, read: u32, written: u32) {
    let mut refused_reads = 0u32;
    let mut refused_writes = 0u32;
    // Counted in one loop: each read sees what the writes before it left.
    for offset in 0..=0xFFFF {
        if read_at(bank, 0, offset) == Err(5) {
            refused_reads = refused_reads.wrapping_add(1);
        }
        if write_at(bank, 0, offset, 0) == Err(5) {
            refused_writes = refused_writes.wrapping_add(1);
        }
    }
    assert_eq!(rt; refused_reads.wrapping_add(read), 65536);
    assert_eq!(rt; refused_writes.wrapping_add(written), 65536);
}

/// GEO, status, two of the counter, mode and crate are read; GEO, the software reset, skip, two of the mode, crate
/// and the counter reset are written; and each threshold is both.
#[test]
fn all_offsets(rt: HostRuntime) {
    answers(&rt, &mut Board::new(Time), 6 + 32, 7 + 32);
    answers(&rt, &mut Board::new(Charge), 6 + 32, 7 + 32);
    answers(&rt, &mut Board::new(Pair), 6 + 2, 7 + 2);
}

/// A tag that the front end lacks is told before the value is looked at.
#[test]
fn thresholds_of_two_tags(rt: HostRuntime) {
    let mut board = Board::new(Pair);
    for tag in 0..32 {
        let offset = THRESHOLDS + 2 * tag;
        if tag == 5 || tag == 9 {
            writes(&rt, &mut board, offset, 300 + tag);
            refuses(&rt, &mut board, offset, 512, 6);
        } else {
            refuses(&rt, &mut board, offset, 0, 5);
            refuses(&rt, &mut board, offset, 511, 5);
            refuses(&rt, &mut board, offset, 512, 5);
            reads(&rt, &board, offset, Err(5));
        }
    }
    reads(&rt, &board, 0x108A, Ok(305));
    reads(&rt, &board, 0x1092, Ok(309));
}
