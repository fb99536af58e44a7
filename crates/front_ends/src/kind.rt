//! A front end that is chosen when the program runs.

ghost use Rattle.std.specs.Prelude.{Some};
ghost use Rattle.front_ends.specs.Chosen.{front_of, front_of_lawful, name_of};

use crate::charge::Charge;
use crate::front_end::FrontEnd;
use crate::step::Step;
use crate::time::Time;
use std::fmt;

/// The kinds of converter that a user can name.
#[derive(Clone, Copy)]
pub enum Kind {
    Time,
    Charge,
}

// Each question goes to the kind's own front end: a `&dyn FrontEnd` handed out would hide it (the check says `hides`).
impl FrontEnd for Kind {
    ghost meaning = { front_of };

    ghost lawful = { front_of_lawful };

    fn slots(&self) -> u8 {
        match self {
            Kind::Time => Time.slots(),
            Kind::Charge => Charge.slots(),
        }
    }

    fn tag(&self, slot: u8) -> Option<u8> {
        match self {
            Kind::Time => Time.tag(slot),
            Kind::Charge => Charge.tag(slot),
        }
    }

    fn slot(&self, tag: u8) -> Option<u8> {
        match self {
            Kind::Time => Time.slot(tag),
            Kind::Charge => Charge.slot(tag),
        }
    }

    fn carries_step(&self) -> bool {
        match self {
            Kind::Time => Time.carries_step(),
            Kind::Charge => Charge.carries_step(),
        }
    }

    fn floor(&self, step: Step, threshold: u8) -> u16 {
        match self {
            Kind::Time => Time.floor(step, threshold),
            Kind::Charge => Charge.floor(step, threshold),
        }
    }
}

impl fmt::Display for Kind {
    ghost output = { λ x. Some (name_of x) };

    fn fmt<W: fmt::Write>(&self, f: &mut fmt::Formatter<W>) -> fmt::Result {
        f.write_str(match self {
            Kind::Time => "time",
            Kind::Charge => "charge",
        })
    }
}
