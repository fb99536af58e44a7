//! Numbers of every length, on each side of the limit.

use crate::said::{OFFSET_NUMBER, OFFSET_RANGE, check_lines};
use std::test::Fail;

#[test]
fn decimals(rt: HostRuntime) -> Result<(), Fail> {
    check_lines(
        &rt,
        &[
            ("read 0", "read 0"),
            ("read 9", "read 9"),
            ("read 10", "read 10"),
            ("read 65535", "read 65535"),
            ("read 65536", OFFSET_RANGE),
            ("read 131071", OFFSET_RANGE),
            ("read 4294967296", OFFSET_RANGE),
            ("read 18446744073709551616", OFFSET_RANGE),
            ("read 000000000000000000000065535", "read 65535"),
            ("read 65535.", OFFSET_NUMBER),
            ("read 12a", OFFSET_NUMBER),
            ("read a12", OFFSET_NUMBER),
            ("read -1", OFFSET_NUMBER),
            ("read +1", OFFSET_NUMBER),
            ("read 1_000", OFFSET_NUMBER),
            ("read /", OFFSET_NUMBER),
            ("read :", OFFSET_NUMBER),
        ],
    )
}

#[test]
fn hexadecimals(rt: HostRuntime) -> Result<(), Fail> {
    check_lines(
        &rt,
        &[
            ("read 0x0", "read 0"),
            ("read 0xa", "read 10"),
            ("read 0xA", "read 10"),
            ("read 0xfFfF", "read 65535"),
            ("read 0x9", "read 9"),
            ("read 0x10000", OFFSET_RANGE),
            ("read 0x00000000000000000000ffff", "read 65535"),
            ("read 0xFFFFFFFFFFFFFFFFF", OFFSET_RANGE),
            ("read 0x", OFFSET_NUMBER),
            ("read 0xG", OFFSET_NUMBER),
            ("read 0xg", OFFSET_NUMBER),
            ("read 0x@", OFFSET_NUMBER),
            ("read 0x`", OFFSET_NUMBER),
            ("read 0X10", OFFSET_NUMBER),
            ("read x10", OFFSET_NUMBER),
            ("read 00x10", OFFSET_NUMBER),
            ("read 0x0x1", OFFSET_NUMBER),
        ],
    )
}

#[test]
fn a_hundred_digits(rt: HostRuntime) -> Result<(), Fail> {
    const NINES: &str =
        "read 9999999999999999999999999999999999999999999999999999999999999999999999999999999999999999999999999999";
    const ZEROS: &str =
        "read 0000000000000000000000000000000000000000000000000000000000000000000000000000000000000000000000000007";
    const LETTER: &str =
        "read 999999999999999999999999999999999999999999999999999999999999999999999999999999999999999999999999999a";
    check_lines(
        &rt,
        &[
            (NINES, OFFSET_RANGE),
            (ZEROS, "read 7"),
            (LETTER, OFFSET_NUMBER),
        ],
    )
}
