//! Runs of several items, whole and broken.

use crate::rooms::Case;
use front_ends::charge::Charge;
use front_ends::front_end::FrontEnd;
use front_ends::kind::Kind;
use front_ends::time::Time;
use std::alloc::Global;
use std::process::Abort;
use std::test::Fail;

/// GEO 3, crate 5, number 7, without readings.
pub(crate) const EMPTY: &[u8] = b"\x1A\x05\x00\x00\x1C\x00\x00\x07";

pub(crate) const EMPTY_RECORD: &[u8] = b"\x00\x00\x07\x03\xFF\x04\xFF\xFF";

/// GEO 3, crate 5, number 7: tag 4 count 100, tag 5 count 800.
const TWO: &[u8] = b"\x1A\x05\x02\x00\x18\x04\x00\x64\x18\x05\x03\x20\x1C\x00\x00\x07";

const TWO_RECORDS: &[u8] = b"\x00\x00\x07\x03\x04\x00\x00\x64\x00\x00\x07\x03\x05\x00\x03\x20";

fn two_readings_at<F: FrontEnd + Copy>(
    rt: &impl Abort,
    heap: Global,
    front: F,
) -> Result<(), Fail> {
    Case {
        front,
        bytes: TWO,
        records: TWO_RECORDS,
        said: "events 1, readings 2, dashes 0, fillers 0",
    }
    .holds(rt, heap)
}

#[test]
fn two_readings(rt: HostRuntime) -> Result<(), Fail> {
    two_readings_at(&rt, rt.alloc(), Charge)?;
    two_readings_at(&rt, rt.alloc(), Time)?;
    two_readings_at(&rt, rt.alloc(), Kind::Charge)?;
    two_readings_at(&rt, rt.alloc(), Kind::Time)
}

/// A filler with every other bit set; an event without readings, number 16777215; a filler; tag 31 under threshold
/// at 15 and tag 0 overflowed at 4095, number 0.
#[test]
fn events_and_fillers(rt: HostRuntime) -> Result<(), Fail> {
    Case {
        front: Charge,
        bytes: b"\xFE\xFF\xFF\xFF\x1A\x05\x00\x00\x1C\xFF\xFF\xFF\x06\x00\x00\x00\xFA\xFF\x02\x00\xF8\x1F\x20\x0F\xF8\x00\x1F\xFF\xFC\x00\x00\x00",
        records: b"\xFF\xFF\xFF\x03\xFF\x04\xFF\xFF\x00\x00\x00\x1F\x1F\x01\x00\x0F\x00\x00\x00\x1F\x00\x02\xFF\xFF",
        said: "events 2, readings 2, dashes 1, fillers 2",
    }
    .holds(&rt, rt.alloc())
}

#[test]
fn a_tag_twice(rt: HostRuntime) -> Result<(), Fail> {
    Case {
        front: Charge,
        bytes: b"\x1A\x05\x02\x00\x18\x04\x00\x64\x18\x04\x00\x64",
        records: b"\x00\x00\x02\x00\xFE\x0F\xFF\xFF",
        said: "events 0, readings 0, dashes 0, fillers 0\nfault 15 at word 2, in the item that begins at word 0: the tag was used in this event; expected one that was not",
    }
    .holds(&rt, rt.alloc())
}

/// A filler, an event whose count of 4095 is a figure, and a datum where a header is due.
#[test]
fn broken_behind_an_event(rt: HostRuntime) -> Result<(), Fail> {
    Case {
        front: Time,
        bytes: b"\x06\x00\x00\x00\x1A\x05\x01\x00\x18\x04\x0F\xFF\x1C\x00\x00\x07\x18\x04\x00\x64",
        records: b"\x00\x00\x07\x03\x04\x00\x0F\xFF\x00\x00\x04\x00\xFE\x0B\xFF\xFF",
        said: "events 1, readings 1, dashes 0, fillers 1\nfault 11 at word 4, in the item that begins at word 4: the word is of another kind; expected a header or a filler",
    }
    .holds(&rt, rt.alloc())
}
