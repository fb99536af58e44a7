//! Runs as long as a run may be, in the room that the program lends.

use crate::rooms::{Case, FULL};
use crate::runs::{EMPTY, EMPTY_RECORD};
use front_ends::charge::Charge;
use std::test::Fail;

/// Appends an event of GEO 3 with 32 readings, and the records that it should have. The tags 0 to 30 count the
/// event's number, and tag 31 overflowed.
fn push_full_event(number: u16, bytes: &mut Vec<u8>, records: &mut Vec<u8>) -> Result<(), Fail> {
    let [high, low] = number.to_be_bytes();
    bytes.extend_from_slice(b"\x1A\x05\x20\x00")?;
    for tag in 0..31 {
        bytes.extend_from_slice(&[0x18, tag, high, low])?;
        records.extend_from_slice(&[0, high, low, 3, tag, 0, high, low])?;
    }
    bytes.extend_from_slice(b"\x18\x1F\x1F\xFF")?;
    records.extend_from_slice(&[0, high, low, 3, 31, 2, 0xFF, 0xFF])?;
    bytes.extend_from_slice(&[0x1C, 0, high, low])?;
    Ok(())
}

#[test]
fn fillers(rt: HostRuntime) -> Result<(), Fail> {
    let heap = rt.alloc();
    let bytes = vec![in heap; 0x06u8; 65536]?;
    Case {
        front: Charge,
        bytes: &bytes,
        records: &[],
        said: "events 0, readings 0, dashes 0, fillers 16384",
    }
    .holds_in(&rt, heap, FULL)
}

#[test]
fn events_without_readings(rt: HostRuntime) -> Result<(), Fail> {
    let heap = rt.alloc();
    let mut bytes = Vec::new(heap);
    let mut records = Vec::new(heap);
    for _ in 0..8192 {
        bytes.extend_from_slice(EMPTY)?;
        records.extend_from_slice(EMPTY_RECORD)?;
    }
    Case {
        front: Charge,
        bytes: &bytes,
        records: &records,
        said: "events 8192, readings 0, dashes 0, fillers 0",
    }
    .holds_in(&rt, heap, FULL)
}

#[test]
fn full_events(rt: HostRuntime) -> Result<(), Fail> {
    let heap = rt.alloc();
    let mut bytes = Vec::new(heap);
    let mut records = Vec::new(heap);
    for number in 0..481 {
        push_full_event(number, &mut bytes, &mut records)?;
    }
    assert_eq!(rt; (bytes.len(), records.len()), (4 * 16354, 8 * 481 * 32));
    assert!(rt; records.starts_with(b"\x00\x00\x00\x03\x00\x00\x00\x00"));
    assert!(rt; records.ends_with(b"\x00\x01\xE0\x03\x1F\x02\xFF\xFF"));
    Case {
        front: Charge,
        bytes: &bytes,
        records: &records,
        said: "events 481, readings 15392, dashes 481, fillers 0",
    }
    .holds_in(&rt, heap, FULL)
}

/// The last of 16384 words is a header: its end, which is missing, has place 0x4000.
#[test]
fn cut_behind_the_last_word(rt: HostRuntime) -> Result<(), Fail> {
    let heap = rt.alloc();
    let mut bytes = vec![in heap; 0x06u8; 65532]?;
    bytes.extend_from_slice(b"\x1A\x05\x00\x00")?;
    Case {
        front: Charge,
        bytes: &bytes,
        records: b"\x00\x40\x00\x00\xFE\x10\xFF\xFF",
        said: "events 0, readings 0, dashes 0, fillers 16383\nfault 16 at word 16384, in the item that begins at word 16383: the run ends inside the event; expected its end",
    }
    .holds_in(&rt, heap, FULL)
}
