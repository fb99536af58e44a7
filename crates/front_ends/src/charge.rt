//! The charge board, V965.

ghost use Rattle.front_ends.specs.Kinds.{charge};
ghost use Rattle.front_ends.specs.KindLaws.{charge_lawful};

use crate::front_end::FrontEnd;
use crate::step::Step;

/// 16 channels, each in two ranges. A tag is twice the channel, plus 1 in the low range.
#[derive(Clone, Copy)]
pub struct Charge;

/// The tag of each slot: the order in which the board reads its converters out.
const TAGS: [u8; 32] = [
    0, 16, 1, 17, 2, 18, 3, 19, 4, 20, 5, 21, 6, 22, 7, 23, 8, 24, 9, 25, 10, 26, 11, 27, 12, 28,
    13, 29, 14, 30, 15, 31,
];

/// The slot of each tag.
const SLOTS: [u8; 32] = [
    0, 2, 4, 6, 8, 10, 12, 14, 16, 18, 20, 22, 24, 26, 28, 30, 1, 3, 5, 7, 9, 11, 13, 15, 17, 19,
    21, 23, 25, 27, 29, 31,
];

impl FrontEnd for Charge {
    ghost meaning = { λ _. charge };

    ghost lawful = { λ x. charge_lawful };

    fn slots(&self) -> u8 {
        32
    }

    fn tag(&self, slot: u8) -> Option<u8> {
        TAGS.get(usize::from(slot)).copied()
    }

    fn slot(&self, tag: u8) -> Option<u8> {
        SLOTS.get(usize::from(tag)).copied()
    }

    fn carries_step(&self) -> bool {
        true
    }

    fn floor(&self, step: Step, threshold: u8) -> u16 {
        match step {
            Step::Coarse => 16 * u16::from(threshold),
            Step::Fine => 2 * u16::from(threshold),
        }
    }
}
