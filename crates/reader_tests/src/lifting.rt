//! The records of an event, and what is answered without any.

use crate::answers::{Answer, event, fault, filler};
use crate::by_hand::{FILLER, OVER, UNDER, datum, end, header};
use crate::spaces::{BLANK, holds, lifts};
use front_ends::charge::Charge;
use front_ends::time::Time;
use std::process::Abort;
use std::test::Fail;

/// Lifts an event of GEO 3, crate 5 and number 7 that is the whole run.
fn writes(rt: &impl Abort, run: &[u32], records: &[u8]) {
    let answer = event(3, 5, 7, run.len().saturating_sub(2), run.len());
    lifts(rt, &Time, run, 0, answer, records);
    lifts(rt, &Charge, run, 0, answer, records);
}

/// Lifts such an event with one reading, of tag 5.
fn writes_one(rt: &impl Abort, judged: u32, count: u16, mark: u8, figure: [u8; 2]) {
    let [high, low] = figure;
    let run = [header(3, 5, 1), datum(3, 5, count) | judged, end(3, 7)];
    writes(rt, &run, &[0, 0, 7, 3, 5, mark, high, low]);
}

/// One byte too few, whatever the run and the place.
fn finds_no_room(rt: &impl Abort, run: &[u32], place: usize) {
    let mut space = [BLANK; 255];
    assert_eq!(rt;
        Answer::of_lift(&Time, run, place, &mut space),
        (Answer::Refused(7), 0)
    );
    holds(rt, &space, &[], BLANK);
}

#[test]
fn two_readings(rt: HostRuntime) {
    let run = [0x1A05_0200, 0x1804_0064, 0x1805_0320, 0x1C00_0007];
    writes(
        &rt,
        &run,
        &[0, 0, 7, 3, 4, 0, 0, 0x64, 0, 0, 7, 3, 5, 0, 3, 0x20],
    );
    let over = [0x1A05_0200, 0x1804_0064, 0x1805_1FFF, 0x1C00_0007];
    writes(
        &rt,
        &over,
        &[0, 0, 7, 3, 4, 0, 0, 0x64, 0, 0, 7, 3, 5, 2, 0xFF, 0xFF],
    );
}

#[test]
fn no_readings(rt: HostRuntime) {
    writes(
        &rt,
        &[0x1A05_0000, 0x1C00_0007],
        &[0, 0, 7, 3, 0xFF, 4, 0xFF, 0xFF],
    );
}

#[test]
fn marks_and_counts(rt: HostRuntime) {
    writes_one(&rt, 0, 0, 0, [0, 0]);
    writes_one(&rt, 0, 4095, 0, [0x0F, 0xFF]);
    writes_one(&rt, UNDER, 9, 1, [0, 9]);
    writes_one(&rt, OVER, 9, 2, [0xFF, 0xFF]);
    writes_one(&rt, UNDER | OVER, 0, 3, [0xFF, 0xFF]);
}

#[test]
fn most_readings(rt: HostRuntime) -> Result<(), Fail> {
    let heap = rt.alloc();
    let mut run = vec![in heap; header(3, 5, 32)]?;
    let mut records = Vec::new(heap);
    for tag in (0..32).rev() {
        run.push(datum(3, tag, u16::from(tag)))?;
        records.extend_from_slice(&[0, 0, 7, 3, tag, 0, 0, tag])?;
    }
    run.push(end(3, 7))?;
    writes(&rt, &run, &records);
    Ok(())
}

#[test]
fn nothing_to_write(rt: HostRuntime) {
    lifts(&rt, &Time, &[], 0, Answer::End, &[]);
    for word in [0x0600_0000, 0xFEFF_FFFF] {
        lifts(&rt, &Time, &[word, 0x1A05_0000], 0, filler(word, 1), &[]);
    }
}

#[test]
fn refusals_in_turn(rt: HostRuntime) -> Result<(), Fail> {
    let long = vec![in rt.alloc(); FILLER; 16385]?;
    finds_no_room(&rt, &[0x1A05_0000, 0x1C00_0007], 0);
    finds_no_room(&rt, &long, 16386);
    finds_no_room(&rt, &[], 1);
    lifts(&rt, &Time, &long, 16386, Answer::Refused(9), &[]);
    lifts(&rt, &Time, &[], 1, Answer::Refused(10), &[]);
    Ok(())
}

#[test]
fn faults_write_nothing(rt: HostRuntime) {
    let run = [0x1A05_0200, 0x1804_0064, 0x1804_0064];
    lifts(&rt, &Time, &run, 0, fault(15, 0, 2), &[]);
    lifts(&rt, &Time, &run, 2, fault(11, 2, 2), &[]);
}
