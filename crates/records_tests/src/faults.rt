//! Each cause of a fault, once. The item that is broken stands behind a filler and an event without readings, so
//! that it begins at word 3.

use crate::rooms::Case;
use crate::runs::{EMPTY, EMPTY_RECORD};
use front_ends::charge::Charge;
use front_ends::front_end::FrontEnd;
use reader_tests::pair::Pair;
use std::alloc::Global;
use std::process::Abort;
use std::test::Fail;

/// An item that is broken: the number of its fault, the place of the word at fault, and what is said of it.
#[derive(Clone, Copy)]
struct Broken {
    item: &'static [u8],
    number: u8,
    place: u8,
    why: &'static str,
}

const BROKEN: [Broken; 11] = [
    Broken {
        item: b"\x18\x04\x00\x64",
        number: 11,
        place: 3,
        why: "the word is of another kind; expected a header or a filler",
    },
    Broken {
        item: b"\x1A\x05\x01\x00\x1C\x00\x00\x07",
        number: 11,
        place: 4,
        why: "the word is of another kind; expected a datum",
    },
    Broken {
        item: b"\x1A\x05\x01\x00\x18\x04\x00\x64\x18\x05\x03\x20",
        number: 11,
        place: 5,
        why: "the word is of another kind; expected the event's end",
    },
    Broken {
        item: b"\x1A\x05\x80\x00",
        number: 12,
        place: 3,
        why: "a bit is 1; expected a header with bits 15, 14 and 7 to 0 zero",
    },
    Broken {
        item: b"\x1A\x05\x01\x00\x18\x24\x00\x64",
        number: 12,
        place: 4,
        why: "a bit is 1; expected a datum with bits 23 to 21, 15 and 14 zero",
    },
    Broken {
        item: b"\x1A\x05\x01\x00\x10\x04\x00\x64",
        number: 13,
        place: 4,
        why: "GEO differs; expected that of the event's header",
    },
    Broken {
        item: b"\x1A\x05\x01\x00\x18\x04\x00\x64\x14\x00\x00\x07",
        number: 13,
        place: 5,
        why: "GEO differs; expected that of the event's header",
    },
    Broken {
        item: b"\x1A\x05\x21\x00",
        number: 14,
        place: 3,
        why: "the header tells of too many readings; expected 32 or fewer",
    },
    Broken {
        item: b"\x1A\x05\x02\x00\x18\x04\x00\x64\x18\x04\x03\x20",
        number: 15,
        place: 5,
        why: "the tag was used in this event; expected one that was not",
    },
    Broken {
        item: b"\x1A\x05\x02\x00\x18\x04\x00\x64",
        number: 16,
        place: 5,
        why: "the run ends inside the event; expected a datum",
    },
    Broken {
        item: b"\x1A\x05\x01\x00\x18\x04\x00\x64",
        number: 16,
        place: 5,
        why: "the run ends inside the event; expected its end",
    },
];

/// The item must end the run: the last record and the second line of the summary tell of the fault.
fn stops<F: FrontEnd + Copy>(
    rt: &impl Abort,
    heap: Global,
    front: F,
    broken: Broken,
) -> Result<(), Fail> {
    let Broken {
        item,
        number,
        place,
        why,
    } = broken;
    let mut bytes = b"\x06\x00\x00\x00".to_vec(heap)?;
    bytes.extend_from_slice(EMPTY)?;
    bytes.extend_from_slice(item)?;
    let mut records = EMPTY_RECORD.to_vec(heap)?;
    records.extend_from_slice(&[0, 0, place, 0, 0xFE, number, 0xFF, 0xFF])?;
    let said = format!(in heap;
        "events 1, readings 0, dashes 0, fillers 1\nfault {number} at word {place}, in the item that begins at word 3: {why}"
    )?;
    Case {
        front,
        bytes: &bytes,
        records: &records,
        said: said.as_str(),
    }
    .holds(rt, heap)
}

#[test]
fn items_that_are_broken(rt: HostRuntime) -> Result<(), Fail> {
    for broken in BROKEN {
        stops(&rt, rt.alloc(), Charge, broken)?;
    }
    Ok(())
}

/// The front end has the tags 5 and 9.
#[test]
fn a_tag_that_is_lacked(rt: HostRuntime) -> Result<(), Fail> {
    let broken = Broken {
        item: b"\x1A\x05\x02\x00\x18\x05\x00\x64\x18\x04\x03\x20\x1C\x00\x00\x07",
        number: 17,
        place: 5,
        why: "the board has no such tag; expected one of its own",
    };
    stops(&rt, rt.alloc(), Pair, broken)
}
