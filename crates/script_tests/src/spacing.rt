//! Spaces, tabs, comments, line ends and noise.

use crate::said::{NO_OFFSET, OFFSET_NUMBER, UNKNOWN, check_bytes, check_lines};
use std::test::Fail;

#[test]
fn blank_lines(rt: HostRuntime) -> Result<(), Fail> {
    check_lines(
        &rt,
        &[
            ("", "blank"),
            (" ", "blank"),
            ("\t \t", "blank"),
            ("\r", "blank"),
            (" \r", "blank"),
            ("#", "blank"),
            ("# read 1", "blank"),
            ("  # read 1\r", "blank"),
            ("##", "blank"),
        ],
    )
}

#[test]
fn gaps(rt: HostRuntime) -> Result<(), Fail> {
    check_lines(
        &rt,
        &[
            (" read 1", "read 1"),
            ("read\t1", "read 1"),
            ("read \t  1 \t", "read 1"),
            ("read 1# one", "read 1"),
            ("read 1#", "read 1"),
            ("read# 1", NO_OFFSET),
            ("read 1\r", "read 1"),
            ("read 1 \r", "read 1"),
            ("read 1\r\r", OFFSET_NUMBER),
            ("read 1\r# one", OFFSET_NUMBER),
            ("read\x0b1", UNKNOWN),
            ("waiting\r", "waiting"),
            ("\rwaiting", UNKNOWN),
        ],
    )
}

#[test]
fn noise(rt: HostRuntime) -> Result<(), Fail> {
    check_bytes(&rt, b"\x80", UNKNOWN)?;
    check_bytes(&rt, b"\xff\xfe\x00 \x80", UNKNOWN)?;
    check_bytes(&rt, b"read \xb1", OFFSET_NUMBER)?;
    check_bytes(&rt, b"read 1\xa0", OFFSET_NUMBER)?;
    check_bytes(&rt, b"read 1 # \xff\x80", "read 1")?;
    check_bytes(&rt, b"\x00", UNKNOWN)
}
