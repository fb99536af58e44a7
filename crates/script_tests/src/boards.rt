//! The line that names the board.

use crate::said::{SURPLUS, check_lines};
use std::test::Fail;

#[test]
fn boards(rt: HostRuntime) -> Result<(), Fail> {
    const KIND: &str =
        "1: not understood: the board's kind is missing or unknown; expected time or charge";
    check_lines(
        &rt,
        &[
            ("board time", "board time"),
            ("board charge", "board charge"),
            ("board", KIND),
            ("board Time", KIND),
            ("board times", KIND),
            ("board tim", KIND),
            ("board both charge", KIND),
            ("board time charge", SURPLUS),
        ],
    )
}
