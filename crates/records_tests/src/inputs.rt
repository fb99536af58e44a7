//! Inputs that are no whole run.

use crate::rooms::{Case, Room};
use crate::runs::{EMPTY, EMPTY_RECORD};
use front_ends::charge::Charge;
use std::test::Fail;
use transcript::convert::convert;

/// Place 0, and number 9.
const REFUSED: [u8; 8] = [0x00, 0x00, 0x00, 0x00, 0xFE, 0x09, 0xFF, 0xFF];

#[test]
fn nothing(rt: HostRuntime) -> Result<(), Fail> {
    Case {
        front: Charge,
        bytes: &[],
        records: &[],
        said: "events 0, readings 0, dashes 0, fillers 0",
    }
    .holds(&rt, rt.alloc())
}

#[test]
fn cut_in_a_word(rt: HostRuntime) -> Result<(), Fail> {
    let one: &[u8] = &[0x1A];
    for bytes in [one, &[0x06, 0, 0, 0, 0x06, 0, 0]] {
        Case {
            front: Charge,
            bytes,
            records: &REFUSED,
            said: "events 0, readings 0, dashes 0, fillers 0\nrefused 9: the input ends inside a word; expected a multiple of 4 bytes",
        }
        .holds(&rt, rt.alloc())?;
    }
    Ok(())
}

#[test]
fn cut_in_an_event(rt: HostRuntime) -> Result<(), Fail> {
    Case {
        front: Charge,
        bytes: &[0x1A, 0x05, 0x01, 0x00, 0x18, 0x04, 0x00, 0x64],
        records: &[0x00, 0x00, 0x02, 0x00, 0xFE, 0x10, 0xFF, 0xFF],
        said: "events 0, readings 0, dashes 0, fillers 0\nfault 16 at word 2, in the item that begins at word 0: the run ends inside the event; expected its end",
    }
    .holds(&rt, rt.alloc())
}

/// 32 words fit the test's space of words, and 33 do not.
#[test]
fn more_than_the_words_space(rt: HostRuntime) -> Result<(), Fail> {
    let fillers = [0x06; 132];
    Case {
        front: Charge,
        bytes: &fillers[0..128],
        records: &[],
        said: "events 0, readings 0, dashes 0, fillers 32",
    }
    .holds(&rt, rt.alloc())?;
    Case {
        front: Charge,
        bytes: &fillers,
        records: &REFUSED,
        said: "events 0, readings 0, dashes 0, fillers 0\nrefused 9: the words do not fit; expected a space as long as they are",
    }
    .holds(&rt, rt.alloc())
}

#[test]
fn longer_than_a_run(rt: HostRuntime) -> Result<(), Fail> {
    let bytes = vec![in rt.alloc(); 0x06u8; 65540]?;
    Case {
        front: Charge,
        bytes: &bytes,
        records: &REFUSED,
        said: "events 0, readings 0, dashes 0, fillers 0\nrefused 9: the input is too long; expected 65536 bytes or fewer",
    }
    .holds(&rt, rt.alloc())
}

/// 256 bytes must be left behind the record, and be there from the first.
#[test]
fn too_little_space(rt: HostRuntime) -> Result<(), Fail> {
    for (bytes, records, said) in [
        (
            264,
            EMPTY_RECORD,
            "events 1, readings 0, dashes 0, fillers 0",
        ),
        (
            263,
            EMPTY_RECORD,
            "events 1, readings 0, dashes 0, fillers 0\nrefused 7: the record space is under 256 bytes",
        ),
        (
            255,
            &[],
            "events 0, readings 0, dashes 0, fillers 0\nrefused 7: the record space is under 256 bytes",
        ),
    ] {
        let room = Room { words: 2, bytes };
        Case {
            front: Charge,
            bytes: EMPTY,
            records,
            said,
        }
        .holds_in(&rt, rt.alloc(), room)?;
    }
    Ok(())
}

/// 255 bytes are refused before a word is written; 256 are enough.
#[test]
fn the_least_space(rt: HostRuntime) {
    let mut words = [7u32; 4];
    let mut space = [0xAAu8; 256];
    let short = convert(&Charge, &[0x06, 0, 0, 0], &mut words, &mut space[0..255]);
    assert_eq!(rt; short.bytes, 0);
    assert!(rt; short.stop.is_some());
    assert_eq!(rt; words, [7; 4]);
    let enough = convert(&Charge, &[0x06, 0, 0, 0], &mut words, &mut space);
    assert!(rt; enough.stop.is_none());
    assert_eq!(rt; enough.tally.fillers, 1);
    assert_eq!(rt; words, [0x0600_0000, 7, 7, 7]);
}
