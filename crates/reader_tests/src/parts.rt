//! Words made from parts: parts that just fit, and parts that are one too large.

use words::word::{Datum, End, Header, Reading};

fn header_word(geo: u8, readings: u8) -> Option<u32> {
    let crate_number = 255;
    Header {
        geo,
        crate_number,
        readings,
    }
    .word()
}

fn datum_word(geo: u8, tag: u8, count: u16) -> Option<u32> {
    let reading = Reading {
        tag,
        under: true,
        over: true,
        count,
    };
    Datum { geo, reading }.word()
}

fn end_word(geo: u8, number: u32) -> Option<u32> {
    End { geo, number }.word()
}

#[test]
fn headers_fit(rt: HostRuntime) {
    assert_eq!(rt; header_word(31, 63), Some(0xFAFF_3F00));
    assert_eq!(rt; header_word(32, 63), None);
    assert_eq!(rt; header_word(31, 64), None);
}

#[test]
fn data_fit(rt: HostRuntime) {
    assert_eq!(rt; datum_word(31, 31, 4095), Some(0xF81F_3FFF));
    assert_eq!(rt; datum_word(32, 31, 4095), None);
    assert_eq!(rt; datum_word(31, 32, 4095), None);
    assert_eq!(rt; datum_word(31, 31, 4096), None);
}

#[test]
fn ends_fit(rt: HostRuntime) {
    assert_eq!(rt; end_word(31, 16_777_215), Some(0xFCFF_FFFF));
    assert_eq!(rt; end_word(32, 16_777_215), None);
    assert_eq!(rt; end_word(31, 16_777_216), None);
}

#[test]
fn readings_are_taken_apart(rt: HostRuntime) {
    for (word, tag, under, over, count) in [
        (0xF81F_3FFF, 31, true, true, 4095),
        (0x1805_2320, 5, true, false, 800),
        (0x1804_1064, 4, false, true, 100),
        (0xFFE0_C000, 0, false, false, 0),
    ] {
        let reading = Reading {
            tag,
            under,
            over,
            count,
        };
        assert_eq!(rt; Reading::from(word), reading);
    }
}
