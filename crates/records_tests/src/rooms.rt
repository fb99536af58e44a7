//! What becomes of bytes, in as much room as is lent.

use front_ends::front_end::FrontEnd;
use std::alloc::Global;
use std::process::Abort;
use std::test::Fail;
use transcript::convert::convert;
use wording::Summary;

/// How many words, and how many bytes of records.
#[derive(Clone, Copy)]
pub(crate) struct Room {
    pub(crate) words: usize,
    pub(crate) bytes: usize,
}

/// Enough for most tests.
const SMALL: Room = Room {
    words: 32,
    bytes: 512,
};

/// What the program lends.
pub(crate) const FULL: Room = Room {
    words: 16384,
    bytes: 131_328,
};

/// What stands in the record space before anything is written.
const BLANK: u8 = 0xAA;

/// Bytes for a front end, the records that they become, and what is said of them.
#[derive(Clone, Copy)]
pub(crate) struct Case<'a, F> {
    pub(crate) front: F,
    pub(crate) bytes: &'a [u8],
    pub(crate) records: &'a [u8],
    pub(crate) said: &'a str,
}

impl<F: FrontEnd + Copy> Case<'_, F> {
    /// The records must stand at the front of the space, with the rest of it blank, and the summary must read so.
    pub(crate) fn holds_in(&self, rt: &impl Abort, heap: Global, room: Room) -> Result<(), Fail> {
        let mut words = vec![in heap; 0u32; room.words]?;
        let mut space = vec![in heap; BLANK; room.bytes]?;
        let transcript = convert(&self.front, self.bytes, &mut words, &mut space);
        let said = Summary(transcript).to_string(heap)?;
        assert_eq!(rt; said.as_str(), self.said);
        assert_eq!(rt; transcript.bytes, self.records.len());
        // Looked at here too: a private module of another crate's tests is not seen from this one.
        for (i, byte) in space.iter().enumerate() {
            assert_eq!(rt;
                *byte,
                self.records.get(i).copied().unwrap_or(BLANK),
                "at {i}"
            );
        }
        Ok(())
    }

    /// The same, in a small room.
    pub(crate) fn holds(&self, rt: &impl Abort, heap: Global) -> Result<(), Fail> {
        self.holds_in(rt, heap, SMALL)
    }
}
