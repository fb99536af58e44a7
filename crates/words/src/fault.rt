//! What can be wrong with one word, and what every fault of a run tells.

ghost use Rattle.std.specs.Prelude.{◌≡◌, Some};
ghost use Rattle.words.specs.Faults.{fault_text, report_at, word_report};

use std::error::Error;
use std::fmt;

/// Where the reader stood: the place of the word, and that of the first word of its event.
/// A run has at most 16,384 words, so each place fits.
#[derive(Clone, Copy, PartialEq, Eq, Debug)]
pub struct Spot {
    pub began: u16,
    pub place: u16,
}

impl Spot {
    /// What a fault here tells.
    pub fn report(self, number: u8, layer: Layer) -> Report
        ensures { result ≡ report_at number layer self }
    {
        Report {
            number,
            layer,
            began: self.began,
            place: self.place,
        }
    }
}

/// The layer that found a fault.
#[derive(Clone, Copy, PartialEq, Eq, Debug)]
pub enum Layer {
    Word,
    Event,
    Run,
}

/// What a fault of any layer tells. The places stand under their own names, as a spot's do.
#[derive(Clone, Copy, PartialEq, Eq, Debug)]
pub struct Report {
    pub number: u8,
    pub layer: Layer,
    pub began: u16,
    pub place: u16,
}

/// Which word may stand at a place.
#[derive(Clone, Copy, PartialEq, Eq, Debug)]
pub enum Due {
    /// A header or a filler.
    First,
    Datum,
    End,
}

impl Due {
    /// That is wrong with the word that was due.
    pub(crate) fn fault(self, cause: WordCause, spot: Spot) -> WordFault
        ensures { result ≡ record { cause = cause; due = self; spot = spot } }
    {
        WordFault {
            cause,
            due: self,
            spot,
        }
    }
}

/// What is wrong with a word.
#[derive(Clone, Copy, PartialEq, Eq, Debug)]
pub enum WordCause {
    /// The word is of a kind that is not due.
    Kind,
    /// A bit that must be 0 is 1.
    Bit,
}

/// A fault of the word layer: what is wrong, what was due, and where.
#[derive(Clone, Copy, PartialEq, Eq, Debug)]
pub struct WordFault {
    pub cause: WordCause,
    pub due: Due,
    pub spot: Spot,
}

impl WordFault {
    /// Number 11 or 12, the word layer, and the places.
    pub fn report(&self) -> Report
        ensures { result ≡ word_report self.now }
    {
        let number = match self.cause {
            WordCause::Kind => 11,
            WordCause::Bit => 12,
        };
        self.spot.report(number, Layer::Word)
    }
}

impl fmt::Display for WordFault {
    ghost output = { λ x. Some (fault_text x.cause x.due) };

    fn fmt<W: fmt::Write>(&self, f: &mut fmt::Formatter<W>) -> fmt::Result {
        f.write_str(match (self.cause, self.due) {
            (WordCause::Kind, Due::First) =>
                "the word is of another kind; expected a header or a filler",
            (WordCause::Kind, Due::Datum) => "the word is of another kind; expected a datum",
            (WordCause::Kind, Due::End) => "the word is of another kind; expected the event's end",
            (WordCause::Bit, Due::First) =>
                "a bit is 1; expected a header with bits 15, 14 and 7 to 0 zero",
            (WordCause::Bit, Due::Datum) =>
                "a bit is 1; expected a datum with bits 23 to 21, 15 and 14 zero",
            (WordCause::Bit, Due::End) => "a bit is 1; expected an end with it zero",
        })
    }
}

impl Error for WordFault {}
