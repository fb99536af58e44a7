//! How long a run may be, and how far a place may go.

use crate::answers::{Answer, fault, filler};
use crate::by_hand::{FILLER, header};
use std::test::Fail;

#[test]
fn the_end_and_past_it(rt: HostRuntime) {
    assert_eq!(rt; Answer::of_read(&[], 0), Answer::End);
    assert_eq!(rt; Answer::of_read(&[], 1), Answer::Refused(10));
    assert_eq!(rt; Answer::of_read(&[FILLER], 1), Answer::End);
    assert_eq!(rt; Answer::of_read(&[FILLER], 2), Answer::Refused(10));
    assert_eq!(rt; Answer::of_read(&[FILLER], usize::MAX), Answer::Refused(10));
}

#[test]
fn the_longest_run(rt: HostRuntime) -> Result<(), Fail> {
    let run = vec![in rt.alloc(); FILLER; 16384]?;
    assert_eq!(rt; Answer::of_read(&run, 0), filler(FILLER, 1));
    assert_eq!(rt; Answer::of_read(&run, 16383), filler(FILLER, 16384));
    assert_eq!(rt; Answer::of_read(&run, 16384), Answer::End);
    assert_eq!(rt; Answer::of_read(&run, 16385), Answer::Refused(10));
    Ok(())
}

#[test]
fn the_longest_run_cut(rt: HostRuntime) -> Result<(), Fail> {
    let mut run = vec![in rt.alloc(); FILLER; 16383]?;
    run.push(header(3, 5, 1))?;
    assert_eq!(rt; Answer::of_read(&run, 16383), fault(16, 16383, 16384));
    Ok(())
}

#[test]
fn a_run_too_long(rt: HostRuntime) -> Result<(), Fail> {
    let run = vec![in rt.alloc(); FILLER; 16385]?;
    for place in [0, 16385, 16386] {
        assert_eq!(rt; Answer::of_read(&run, place), Answer::Refused(9), "{place}");
    }
    Ok(())
}
