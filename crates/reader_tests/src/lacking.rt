//! A front end that lacks tags.

use crate::answers::{Answer, event, fault};
use crate::by_hand::{FILLER, datum, end, header};
use crate::pair::Pair;
use crate::spaces::lifts;
use std::process::Abort;

/// Lifts an event with these three tags at place 1, whose end has this GEO.
fn finds(rt: &impl Abort, tags: [u8; 3], end_geo: u8, answer: Answer) {
    let [first, second, third] = tags;
    let run = [
        FILLER,
        header(3, 5, 3),
        datum(3, first, 100),
        datum(3, second, 200),
        datum(3, third, 300),
        end(end_geo, 7),
    ];
    lifts(rt, &Pair, &run, 1, answer, &[]);
}

#[test]
fn a_tag_that_is_lacked(rt: HostRuntime) {
    finds(&rt, [4, 5, 9], 3, fault(17, 1, 2));
    finds(&rt, [9, 6, 5], 3, fault(17, 1, 3));
    finds(&rt, [5, 9, 31], 3, fault(17, 1, 4));
    finds(&rt, [0, 1, 2], 3, fault(17, 1, 2));
}

#[test]
fn the_event_comes_first(rt: HostRuntime) {
    finds(&rt, [4, 4, 9], 3, fault(15, 1, 3));
    finds(&rt, [4, 5, 9], 2, fault(13, 1, 5));
}

#[test]
fn tags_that_it_has(rt: HostRuntime) {
    let run = [header(3, 5, 2), datum(3, 9, 1), datum(3, 5, 2), end(3, 7)];
    lifts(
        &rt,
        &Pair,
        &run,
        0,
        event(3, 5, 7, 2, 4),
        &[0, 0, 7, 3, 9, 0, 0, 1, 0, 0, 7, 3, 5, 0, 0, 2],
    );
}
