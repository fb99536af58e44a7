//! The tables and the floors of the two kinds of front end.

use front_ends::charge::Charge;
use front_ends::front_end::FrontEnd;
use front_ends::step::Step;
use front_ends::time::Time;
use std::process::Abort;

fn slot_has_tag<F: FrontEnd>(rt: &impl Abort, front: &F, slot: u8, tag: u8) {
    assert_eq!(rt; front.tag(slot), Some(tag), "slot {slot}");
    assert_eq!(rt; front.slot(tag), Some(slot), "tag {tag}");
}

fn ends_at_32<F: FrontEnd>(rt: &impl Abort, front: &F) {
    assert_eq!(rt; front.slots(), 32);
    for past in [32, 33, 255] {
        assert_eq!(rt; front.tag(past), None, "{past}");
        assert_eq!(rt; front.slot(past), None, "{past}");
    }
}

/// The floors of the thresholds 0, 7 and 255.
fn floors<F: FrontEnd>(rt: &impl Abort, front: &F, step: Step, expected: [u16; 3]) {
    for (threshold, floor) in [0, 7, 255].into_iter().zip(expected) {
        assert_eq!(rt;
            front.floor(step, threshold),
            floor,
            "threshold {threshold}"
        );
    }
}

#[test]
fn time_tags_are_slots(rt: HostRuntime) {
    for slot in 0..32 {
        slot_has_tag(&rt, &Time, slot, slot);
    }
    ends_at_32(&rt, &Time);
}

/// The tags of the lower and of the upper half take turns.
#[test]
fn charge_tags_go_by_two_halves(rt: HostRuntime) {
    for tag in 0..16 {
        slot_has_tag(&rt, &Charge, 2 * tag, tag);
        slot_has_tag(&rt, &Charge, 2 * tag + 1, 16 + tag);
    }
    ends_at_32(&rt, &Charge);
}

#[test]
fn only_charge_carries_step(rt: HostRuntime) {
    assert_eq!(rt; Time.carries_step(), false);
    assert_eq!(rt; Charge.carries_step(), true);
}

#[test]
fn floors_go_by_step(rt: HostRuntime) {
    floors(&rt, &Time, Step::Coarse, [0, 112, 4080]);
    floors(&rt, &Time, Step::Fine, [0, 112, 4080]);
    floors(&rt, &Charge, Step::Coarse, [0, 112, 4080]);
    floors(&rt, &Charge, Step::Fine, [0, 14, 510]);
}
