//! The time board, V878.

ghost use Rattle.front_ends.specs.Kinds.{time};
ghost use Rattle.front_ends.specs.KindLaws.{time_lawful};

use crate::front_end::FrontEnd;
use crate::step::Step;

/// 32 channels, each its own slot and its own tag.
#[derive(Clone, Copy)]
pub struct Time;

impl FrontEnd for Time {
    ghost meaning = { λ _. time };

    ghost lawful = { λ x. time_lawful };

    fn slots(&self) -> u8 {
        32
    }

    fn tag(&self, slot: u8) -> Option<u8> {
        if slot < 32 { Some(slot) } else { None }
    }

    fn slot(&self, tag: u8) -> Option<u8> {
        // Slot and tag are one number here.
        self.tag(tag)
    }

    fn carries_step(&self) -> bool {
        false
    }

    fn floor(&self, _step: Step, threshold: u8) -> u16 {
        16 * u16::from(threshold)
    }
}
