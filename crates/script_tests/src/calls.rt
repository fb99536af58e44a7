//! Calls and their arguments. Of several mistakes the leftmost is told.

use crate::said::{NO_OFFSET, OFFSET_NUMBER, OFFSET_RANGE, SURPLUS, UNKNOWN, check_lines};
use std::test::Fail;

#[test]
fn reads_and_writes(rt: HostRuntime) -> Result<(), Fail> {
    const VALUE: &str = "1: not understood: the value is missing; expected a number up to 65535";
    check_lines(
        &rt,
        &[
            ("write 0x1032 0x4880", "write 4146 18560"),
            ("write 1 2", "write 1 2"),
            ("write", NO_OFFSET),
            ("write 1", VALUE),
            ("write 1 2 3", SURPLUS),
            ("write 1 # 2", VALUE),
            ("read 0x1032", "read 4146"),
            ("read", NO_OFFSET),
            ("read 1 2", SURPLUS),
            ("write x", OFFSET_NUMBER),
            (
                "write 1 x y",
                "1: not understood: the value is not a number, decimal or after 0x; expected a number up to 65535",
            ),
            ("write 65536 x", OFFSET_RANGE),
        ],
    )
}

#[test]
fn waits_and_draws(rt: HostRuntime) -> Result<(), Fail> {
    const LENGTH: &str =
        "1: not understood: the block's length is out of range; expected a number up to 64";
    check_lines(
        &rt,
        &[
            ("waiting", "waiting"),
            ("waiting 1", SURPLUS),
            ("draw", "draw 34"),
            ("draw 0", "draw 0"),
            ("draw 34", "draw 34"),
            ("draw 64", "draw 64"),
            ("draw 0x40", "draw 64"),
            ("draw 65", LENGTH),
            ("draw 0x41", LENGTH),
            ("draw 65 1", LENGTH),
            ("draw 64 1", SURPLUS),
            (
                "draw all",
                "1: not understood: the block's length is not a number, decimal or after 0x; expected a number up to 64",
            ),
        ],
    )
}

#[test]
fn names(rt: HostRuntime) -> Result<(), Fail> {
    check_lines(
        &rt,
        &[
            ("WAITING", UNKNOWN),
            ("Draw", UNKNOWN),
            ("waitin", UNKNOWN),
            ("waitings", UNKNOWN),
            ("waiting:", UNKNOWN),
            ("Board time", UNKNOWN),
            ("boards time", UNKNOWN),
            ("0", UNKNOWN),
            ("gates x", UNKNOWN),
        ],
    )
}
