//! A front end that lacks most tags.

ghost use Rattle.std.specs.Prelude.{◌*◌, false, [], ◌∷◌};
ghost use Rattle.std.proofs.Common.{rules};

use front_ends::front_end::FrontEnd;
use front_ends::step::Step;

/// Two slots, with the tags 5 and 9.
#[derive(Clone, Copy)]
pub struct Pair;

impl FrontEnd for Pair {
    ghost meaning = { λ _. record { tags = 5 ∷ 9 ∷ []; carries_step = false; floor = λ _ t. 16 * t } };

    ghost lawful = { Prim.search rules };

    fn slots(&self) -> u8 {
        2
    }

    fn tag(&self, slot: u8) -> Option<u8> {
        match slot {
            0 => Some(5),
            1 => Some(9),
            _ => None,
        }
    }

    fn slot(&self, tag: u8) -> Option<u8> {
        match tag {
            5 => Some(0),
            9 => Some(1),
            _ => None,
        }
    }

    fn carries_step(&self) -> bool {
        false
    }

    fn floor(&self, _step: Step, threshold: u8) -> u16 {
        16 * u16::from(threshold)
    }
}
