//! Spaces that something was written to.

use crate::answers::Answer;
use front_ends::front_end::FrontEnd;
use std::fmt::Debug;
use std::process::Abort;

/// What stands in a record space before anything is written.
pub(crate) const BLANK: u8 = 0xAA;

/// What was written must stand at the front of the space, and the rest be blank. (The tests of boards and of runs look
/// at theirs by themselves: a private module of tests is not seen from another crate.)
pub(crate) fn holds<T: Copy + PartialEq + Debug>(
    rt: &impl Abort,
    space: &[T],
    written: &[T],
    blank: T,
) {
    for (i, item) in space.iter().enumerate() {
        assert_eq!(rt; *item, written.get(i).copied().unwrap_or(blank), "at {i}");
    }
}

/// Lifts what stands at a place: this must be the answer, and these records all that is written.
pub(crate) fn lifts<F: FrontEnd>(
    rt: &impl Abort,
    front: &F,
    run: &[u32],
    place: usize,
    answer: Answer,
    records: &[u8],
) {
    let mut space = [BLANK; 256];
    assert_eq!(rt;
        Answer::of_lift(front, run, place, &mut space),
        (answer, records.len() / 8)
    );
    holds(rt, &space, records, BLANK);
}
