//! Words put together bit by bit.
//!
//! The tests of boards have the same: a private module of tests is not seen from another crate, and a public one would be a promise.

/// Kind 110, and every other bit 0.
pub(crate) const FILLER: u32 = 0x0600_0000;

/// The bit of a datum whose count is under threshold.
pub(crate) const UNDER: u32 = 1 << 13;

/// The bit of a datum whose count overflowed.
pub(crate) const OVER: u32 = 1 << 12;

/// GEO in 31..27, the kind in 26..24.
pub(crate) fn word(geo: u8, kind: u8) -> u32 {
    u32::from(geo) << 27 | u32::from(kind) << 24
}

/// The crate in 23..16, the number of readings in 13..8.
pub(crate) fn header(geo: u8, crate_number: u8, readings: u8) -> u32 {
    word(geo, 0b010) | u32::from(crate_number) << 16 | u32::from(readings) << 8
}

/// The tag in 20..16, the count in 11..0.
pub(crate) fn datum(geo: u8, tag: u8, count: u16) -> u32 {
    word(geo, 0b000) | u32::from(tag) << 16 | u32::from(count)
}

/// The event number in 23..0.
pub(crate) fn end(geo: u8, number: u32) -> u32 {
    word(geo, 0b100) | number
}

#[test]
fn words_are_put_together(rt: HostRuntime) {
    assert_eq!(rt; header(3, 5, 2), 0x1A05_0200);
    assert_eq!(rt; datum(3, 4, 100), 0x1804_0064);
    assert_eq!(rt; datum(3, 5, 0xFFF) | OVER, 0x1805_1FFF);
    assert_eq!(rt; datum(0, 0, 0) | UNDER, 0x0000_2000);
    assert_eq!(rt; end(3, 7), 0x1C00_0007);
}
