//! Gates: the signal, and readings with their repetitions.

use crate::said::{READING_RANGE, check_lines};
use script::call::{Call, Line};
use script::parse::parse;
use std::test::Fail;

#[test]
fn signals(rt: HostRuntime) -> Result<(), Fail> {
    const RANGE: &str =
        "1: not understood: the signal is out of range; expected none, veto, clear or a number up to 255";
    const NUMBER: &str =
        "1: not understood: the signal is not a number, decimal or after 0x; expected none, veto, clear or a number up to 255";
    check_lines(
        &rt,
        &[
            ("gate none", "gate 0:"),
            ("gate veto", "gate 1:"),
            ("gate clear", "gate 2:"),
            ("gate 0", "gate 0:"),
            ("gate 3", "gate 3:"),
            ("gate 255", "gate 255:"),
            ("gate 0xff", "gate 255:"),
            ("gate 256", RANGE),
            ("gate 0x100", RANGE),
            ("gate None", NUMBER),
            ("gate nones", NUMBER),
            ("gate x y", NUMBER),
            (
                "gate",
                "1: not understood: the signal is missing; expected none, veto, clear or a number up to 255",
            ),
        ],
    )
}

#[test]
fn readings(rt: HostRuntime) -> Result<(), Fail> {
    const NUMBER: &str =
        "1: not understood: a reading is not a number, decimal or after 0x; expected a number up to 65535";
    check_lines(
        &rt,
        &[
            ("gate none 1", "gate 0: 1"),
            ("gate none 1 0 65535 0xFFFF", "gate 0: 1 0 65535 65535"),
            ("gate none 65536", READING_RANGE),
            ("gate none 1 0x10000 x", READING_RANGE),
            ("gate none x 65536", NUMBER),
            ("gate none *2", NUMBER),
            ("gate none *", NUMBER),
        ],
    )
}

#[test]
fn repetitions(rt: HostRuntime) -> Result<(), Fail> {
    const RANGE: &str =
        "1: not understood: how often is out of range; expected a number from 1 to 64";
    const NUMBER: &str =
        "1: not understood: how often is not a number, decimal or after 0x; expected a number from 1 to 64";
    check_lines(
        &rt,
        &[
            ("gate none 7*1", "gate 0: 7"),
            ("gate none 7*3 8 9*0x2", "gate 0: 7 7 7 8 9 9"),
            ("gate none 0xA*2", "gate 0: 10 10"),
            ("gate none 7*0", RANGE),
            ("gate none 7*65", RANGE),
            ("gate none 7*", NUMBER),
            ("gate none 7*x", NUMBER),
            ("gate none 7*2*2", NUMBER),
            ("gate none 65536*0", READING_RANGE),
        ],
    )
}

/// How many readings a gate's line brings, and the last of them; none where it is not understood.
fn counted(line: &[u8]) -> Option<(usize, u16)> {
    let Ok(Line::Call(Call::Gate { readings, .. })) = parse(line) else {
        return None;
    };
    let readings = readings.as_slice();
    Some((readings.len(), *readings.last()?))
}

#[test]
fn many_readings(rt: HostRuntime) -> Result<(), Fail> {
    for (line, count) in [
        ("gate none 5*64", Some((64, 5))),
        ("gate none 1*64 2*64 3*64 4*63", Some((255, 4))),
        ("gate none 1*64 2*64 3*64 4*64", Some((256, 4))),
        ("gate none 1*64 2*64 3*64 4*63 6", Some((256, 6))),
        ("gate none 1*64 2*64 3*64 4*64 6", None),
        ("gate none 1*64 2*64 3*64 4*63 6*2", None),
    ] {
        assert_eq!(rt; counted(line.as_bytes()), count, "{line}");
    }
    check_lines(
        &rt,
        &[(
            "gate none 1*64 2*64 3*64 4*64 6 x",
            "1: not understood: the readings are too many; expected 256 or fewer on a line",
        )],
    )
}
