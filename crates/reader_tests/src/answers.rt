//! What a reader answered, as a value that can be compared and printed.

use front_ends::front_end::FrontEnd;
use lift::lift;
use reader::fault::Refusal;
use reader::item::{Found, Item};
use reader::run::read;
use words::fault::{Layer, Report};

/// What a test expects. Refusals and faults are told by their numbers, so that the numbers are tested too.
#[derive(Clone, Copy, PartialEq, Debug)]
pub(crate) enum Answer {
    End,
    Filler {
        word: u32,
        next: usize,
    },
    Event {
        geo: u8,
        crate_number: u8,
        number: u32,
        readings: usize,
        next: usize,
    },
    /// A refusal that is no fault, by its number.
    Refused(u8),
    Fault(Report),
}

impl Answer {
    /// The place after the item, if there is one.
    pub(crate) fn next(&self) -> Option<usize> {
        match self {
            Answer::Filler { next, .. } | Answer::Event { next, .. } => Some(*next),
            _ => None,
        }
    }

    pub(crate) fn of_read(run: &[u32], place: usize) -> Answer {
        match read(run, place) {
            Ok(found) => Answer::from(found),
            Err(refusal) => Answer::from(refusal),
        }
    }

    /// What `lift` answered, and how many records it wrote.
    pub(crate) fn of_lift<F: FrontEnd>(
        front: &F,
        run: &[u32],
        place: usize,
        space: &mut [u8],
    ) -> (Answer, usize) {
        match lift(front, run, place, space) {
            Ok(Some(lifted)) => (Answer::from(Some(lifted.found)), lifted.records),
            Ok(None) => (Answer::End, 0),
            Err(refusal) => (Answer::from(refusal), 0),
        }
    }
}

impl<'a> From<Option<Found<'a>>> for Answer {
    fn from(found: Option<Found<'a>>) -> Answer {
        let Some(Found { item, next }) = found else {
            return Answer::End;
        };
        match item {
            Item::Filler(word) => Answer::Filler { word, next },
            Item::Event {
                geo,
                crate_number,
                number,
                data_words,
            } => Answer::Event {
                geo,
                crate_number,
                number,
                readings: data_words.len(),
                next,
            },
        }
    }
}

impl From<Refusal> for Answer {
    fn from(refusal: Refusal) -> Answer {
        match refusal {
            Refusal::Fault(fault) => Answer::Fault(fault.report()),
            _ => Answer::Refused(refusal.number()),
        }
    }
}

pub(crate) fn filler(word: u32, next: usize) -> Answer {
    Answer::Filler { word, next }
}

pub(crate) fn event(
    geo: u8,
    crate_number: u8,
    number: u32,
    readings: usize,
    next: usize,
) -> Answer {
    Answer::Event {
        geo,
        crate_number,
        number,
        readings,
        next,
    }
}

/// The fault of a number at a place of the event that began at `began`.
pub(crate) fn fault(number: u8, began: u16, place: u16) -> Answer {
    let layer = match number {
        11 | 12 => Layer::Word,
        17 => Layer::Run,
        _ => Layer::Event,
    };
    Answer::Fault(Report {
        number,
        layer,
        began,
        place,
    })
}
