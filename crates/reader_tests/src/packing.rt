//! Bytes packed into words, on each side of each limit.

use crate::spaces::holds;
use reader::pack::{PackRefusal, pack};
use std::alloc::{AllocError, Global};
use std::process::Abort;

/// What stands in a word space before anything is written.
const BLANK: u32 = 0xAAAA_AAAA;

/// Packs into a blank space, which must take these words.
fn packs(rt: &impl Abort, bytes: &[u8], space: &mut [u32], words: &[u32]) {
    space.fill(BLANK);
    assert_eq!(rt; pack(bytes, space), Ok(words.len()));
    holds(rt, space, words, BLANK);
}

/// Packs into a blank space: it must be refused, and the space stay blank.
fn refuses(rt: &impl Abort, bytes: &[u8], space: &mut [u32], refusal: PackRefusal) {
    space.fill(BLANK);
    assert_eq!(rt; pack(bytes, space), Err(refusal));
    assert_eq!(rt; refusal.number(), 9);
    holds(rt, space, &[], BLANK);
}

fn bytes(heap: Global, count: usize) -> Result<Vec<u8>, AllocError> {
    vec![in heap; 0x5A; count]
}

#[test]
fn the_high_byte_comes_first(rt: HostRuntime) {
    let bytes = [0x1A, 0x05, 0x02, 0x00, 0x00, 0x00, 0x00, 0xFF];
    let words = [0x1A05_0200, 0x0000_00FF];
    packs(&rt, &bytes, &mut [0; 2], &words);
    packs(&rt, &bytes, &mut [0; 4], &words);
    packs(&rt, &[], &mut [0; 1], &[]);
    packs(&rt, &[], &mut [], &[]);
}

#[test]
fn refused_bytes_leave_the_space(rt: HostRuntime) {
    let bytes = [0x1A, 0x05, 0x02, 0x00, 0x00, 0x00, 0x00, 0xFF];
    refuses(&rt, &bytes, &mut [0; 1], PackRefusal::SpaceShort);
    refuses(&rt, &bytes[0..7], &mut [0; 2], PackRefusal::CutWord);
    refuses(&rt, &bytes[0..5], &mut [0; 1], PackRefusal::CutWord);
    refuses(&rt, &bytes[0..1], &mut [], PackRefusal::CutWord);
}

#[test]
fn most_bytes(rt: HostRuntime) -> Result<(), AllocError> {
    let heap = rt.alloc();
    let words = vec![in heap; 0x5A5A_5A5A; 16384]?;
    let mut space = vec![in heap; 0; 16384]?;
    packs(&rt, &bytes(heap, 65536)?, &mut space, &words);
    Ok(())
}

#[test]
fn too_many_bytes(rt: HostRuntime) -> Result<(), AllocError> {
    let heap = rt.alloc();
    let mut space = vec![in heap; 0; 16385]?;
    refuses(&rt, &bytes(heap, 65540)?, &mut space, PackRefusal::TooLong);
    refuses(&rt, &bytes(heap, 65537)?, &mut space, PackRefusal::TooLong);
    refuses(&rt, &bytes(heap, 65540)?, &mut [], PackRefusal::TooLong);
    refuses(&rt, &bytes(heap, 65535)?, &mut space, PackRefusal::CutWord);
    Ok(())
}
