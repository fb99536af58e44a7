//! Each fault of a run at the first, a middle and the last word that it can strike, and which of several is told.

use crate::answers::{Answer, event, fault};
use crate::by_hand::{FILLER, datum, end, header, word};
use reader::run::read;
use std::process::Abort;
use std::test::Fail;

/// A filler, and an event with the tags 4 to 7: its header at place 1, its end at place 6.
const RUN: [u32; 7] = [
    0x0600_0000,
    0x1A05_0400,
    0x1804_0064,
    0x1805_0320,
    0x1806_0001,
    0x1807_0FFF,
    0x1C00_0007,
];

/// Puts each word in the place of the run's own: that word must have the fault.
fn strike(rt: &impl Abort, number: u8, place: u16, words: &[u32]) {
    for word in words {
        let mut run = RUN;
        if let Some(struck) = run.get_mut(usize::from(place)) {
            *struck = *word;
        }
        let note = format_args!("{word:#x} at {place}");
        assert_eq!(rt;
            Answer::of_read(&run, 1),
            fault(number, 1, place),
            "{}",
            note
        );
    }
}

/// Reads a run that begins with an event: it must have the fault.
fn stop(rt: &impl Abort, number: u8, place: u16, run: &[u32]) {
    assert_eq!(rt; Answer::of_read(run, 0), fault(number, 0, place));
}

#[test]
fn nothing_is_wrong(rt: HostRuntime) {
    assert_eq!(rt; Answer::of_read(&RUN, 1), event(3, 5, 7, 4, 7));
}

#[test]
fn a_kind_that_is_not_due(rt: HostRuntime) {
    strike(
        &rt,
        11,
        1,
        &[datum(3, 9, 0), end(3, 0), word(3, 1), word(3, 7)],
    );
    for place in 2..6 {
        strike(
            &rt,
            11,
            place,
            &[header(3, 5, 4), end(3, 7), FILLER, word(3, 3)],
        );
    }
    strike(&rt, 11, 6, &[header(3, 5, 0), datum(3, 9, 0)]);
    strike(&rt, 11, 6, &[FILLER, word(3, 5)]);
}

#[test]
fn a_bit_that_must_be_0(rt: HostRuntime) {
    for bit in [15, 14, 7, 0] {
        strike(&rt, 12, 1, &[header(3, 5, 4) | 1 << bit]);
    }
    for bit in [23, 22, 21, 15, 14] {
        for place in 2..6 {
            strike(&rt, 12, place, &[datum(3, 9, 100) | 1 << bit]);
        }
    }
}

#[test]
fn another_geo(rt: HostRuntime) {
    for place in 2..6 {
        strike(&rt, 13, place, &[datum(2, 9, 100), datum(19, 9, 100)]);
    }
    strike(&rt, 13, 6, &[end(2, 7), end(4, 7), end(31, 7)]);
}

#[test]
fn too_many_readings(rt: HostRuntime) {
    strike(&rt, 14, 1, &[header(3, 5, 33), header(3, 5, 63)]);
}

#[test]
fn a_tag_twice(rt: HostRuntime) {
    strike(&rt, 15, 3, &[datum(3, 4, 100), datum(3, 4, 0)]);
    strike(&rt, 15, 4, &[datum(3, 4, 1), datum(3, 5, 1)]);
    strike(
        &rt,
        15,
        5,
        &[datum(3, 4, 1), datum(3, 5, 1), datum(3, 6, 1)],
    );
}

#[test]
fn the_run_ends_inside(rt: HostRuntime) -> Result<(), Fail> {
    for len in 2..7u16 {
        let cut = RUN.get(0..usize::from(len)).ok_or("no such part")?;
        assert_eq!(rt; Answer::of_read(cut, 1), fault(16, 1, len));
    }
    stop(&rt, 16, 1, &[header(3, 5, 0)]);
    Ok(())
}

#[test]
fn the_first_check_tells(rt: HostRuntime) {
    strike(&rt, 11, 1, &[datum(3, 9, 100) | 1 << 15]);
    strike(&rt, 11, 3, &[header(3, 5, 4) | 1 << 23, end(2, 7)]);
    strike(&rt, 11, 6, &[datum(2, 4, 100)]);
    strike(&rt, 12, 1, &[header(3, 5, 33) | 1 << 14]);
    strike(
        &rt,
        12,
        3,
        &[datum(2, 9, 0) | 1 << 21, datum(3, 4, 0) | 1 << 15],
    );
    strike(&rt, 13, 3, &[datum(2, 4, 100)]);
    strike(&rt, 13, 5, &[datum(2, 6, 1)]);
}

#[test]
fn the_first_word_tells(rt: HostRuntime) {
    stop(&rt, 14, 0, &[header(3, 5, 33)]);
    stop(&rt, 13, 1, &[header(3, 5, 2), datum(2, 4, 100)]);
    stop(&rt, 16, 2, &[header(3, 5, 2), datum(3, 4, 100)]);
    stop(
        &rt,
        11,
        2,
        &[header(3, 5, 1), datum(3, 4, 1), datum(2, 4, 1)],
    );
}

#[test]
fn a_refusal_tells_number_and_place(rt: HostRuntime) -> Result<(), Fail> {
    let Err(refusal) = read(&[0x1A05_0200, 0x1804_0064, 0x1804_0064], 0) else {
        return Err(Fail::new("nothing is wrong"));
    };
    assert_eq!(rt; (refusal.number(), refusal.place()), (15, 2));
    Ok(())
}
