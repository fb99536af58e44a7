//! Records written from data words alone, and the records of faults.

use crate::by_hand::datum;
use crate::spaces::{BLANK, holds};
use event_records::{fault_record, write_records};
use std::process::Abort;

/// Writes the records of an event of GEO 3: these must be all that is written.
fn writes(rt: &impl Abort, number: u32, words: &[u32], space: &mut [u8], records: &[u8]) {
    space.fill(BLANK);
    assert_eq!(rt;
        write_records(number, 3, words, space),
        Some(records.len() / 8)
    );
    holds(rt, space, records, BLANK);
}

fn refuses(rt: &impl Abort, number: u32, words: &[u32], space: &mut [u8]) {
    space.fill(BLANK);
    assert_eq!(rt; write_records(number, 3, words, space), None);
    holds(rt, space, &[], BLANK);
}

#[test]
fn records_that_just_fit(rt: HostRuntime) {
    let none = [0, 0, 7, 3, 0xFF, 4, 0xFF, 0xFF];
    writes(&rt, 7, &[], &mut [0; 8], &none);
    writes(&rt, 7, &[], &mut [0; 9], &none);
    let two = [datum(3, 4, 100), datum(3, 5, 800)];
    writes(
        &rt,
        7,
        &two,
        &mut [0; 16],
        &[0, 0, 7, 3, 4, 0, 0, 0x64, 0, 0, 7, 3, 5, 0, 3, 0x20],
    );
    writes(
        &rt,
        0xFF_FFFF,
        &[],
        &mut [0; 8],
        &[0xFF, 0xFF, 0xFF, 3, 0xFF, 4, 0xFF, 0xFF],
    );
}

#[test]
fn records_that_do_not_fit(rt: HostRuntime) {
    refuses(&rt, 7, &[], &mut [0; 7]);
    refuses(&rt, 7, &[datum(3, 4, 100), datum(3, 5, 800)], &mut [0; 15]);
    refuses(&rt, 0x100_0000, &[], &mut [0; 8]);
}

#[test]
fn records_of_faults(rt: HostRuntime) {
    assert_eq!(rt; fault_record(2, 15), [0, 0, 2, 0, 0xFE, 15, 0xFF, 0xFF]);
    assert_eq!(rt; fault_record(0, 11), [0, 0, 0, 0, 0xFE, 11, 0xFF, 0xFF]);
    assert_eq!(rt;
        fault_record(16384, 16),
        [0, 0x40, 0, 0, 0xFE, 16, 0xFF, 0xFF]
    );
}
