//! A run of fillers and events, walked from its front to its end.

use crate::answers::{Answer, event, filler};
use crate::spaces::lifts;
use front_ends::time::Time;
use reader::item::Item;
use reader::run::read;
use std::test::Fail;

/// A filler, an event with two readings, two fillers, an event with none, one with one, and a filler.
const RUN: [u32; 13] = [
    0x0600_0000,
    0x1A05_0200,
    0x1804_0064,
    0x1805_2320,
    0x1C00_0007,
    0xFEFF_FFFF,
    0x0E12_3456,
    0xFAFF_0000,
    0xFCFF_FFFF,
    0x0200_0100,
    0x001F_1ABC,
    0x0400_0000,
    0x0600_0000,
];

/// The items of the run, each with its records.
fn items() -> [(Answer, &'static [u8]); 7] {
    [
        (filler(0x0600_0000, 1), &[]),
        (
            event(3, 5, 7, 2, 5),
            &[0, 0, 7, 3, 4, 0, 0, 0x64, 0, 0, 7, 3, 5, 1, 3, 0x20],
        ),
        (filler(0xFEFF_FFFF, 6), &[]),
        (filler(0x0E12_3456, 7), &[]),
        (
            event(31, 255, 0xFF_FFFF, 0, 9),
            &[0xFF, 0xFF, 0xFF, 31, 0xFF, 4, 0xFF, 0xFF],
        ),
        (event(0, 0, 0, 1, 12), &[0, 0, 0, 0, 31, 2, 0xFF, 0xFF]),
        (filler(0x0600_0000, 13), &[]),
    ]
}

#[test]
fn read_goes_to_the_end(rt: HostRuntime) -> Result<(), Fail> {
    let mut place = 0;
    for (answer, _) in items() {
        assert_eq!(rt; Answer::of_read(&RUN, place), answer);
        place = answer.next().ok_or("no item")?;
    }
    assert_eq!(rt; Answer::of_read(&RUN, place), Answer::End);
    Ok(())
}

#[test]
fn lift_goes_to_the_end(rt: HostRuntime) -> Result<(), Fail> {
    let mut place = 0;
    for (answer, records) in items() {
        lifts(&rt, &Time, &RUN, place, answer, records);
        place = answer.next().ok_or("no item")?;
    }
    lifts(&rt, &Time, &RUN, place, Answer::End, &[]);
    Ok(())
}

#[test]
fn an_event_lends_its_data(rt: HostRuntime) -> Result<(), Fail> {
    let Ok(Some(found)) = read(&RUN, 1) else {
        return Err(Fail::new("no item"));
    };
    let Item::Event { data_words, .. } = found.item else {
        return Err(Fail::new("no event"));
    };
    assert_eq!(rt; data_words, [0x1804_0064, 0x1805_2320].as_slice());
    Ok(())
}
