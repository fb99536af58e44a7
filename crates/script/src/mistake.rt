//! Why a line is not understood.

ghost use Rattle.std.specs.Prelude.{◌≡◌, Some};
ghost use Rattle.script.specs.Reasons.{place_name, flaw_text, range_text, subject_of, trouble_of, wanted_of, reason_of};

use std::error::Error;
use std::fmt;

/// What a number stands for.
#[derive(Clone, Copy, Debug, PartialEq, Eq)]
pub enum Place {
    Signal,
    Reading,
    /// How often a reading stands.
    Times,
    Offset,
    Value,
    /// The block's length.
    Length,
}

impl Place {
    fn name(self) -> &'static str
        ensures { result.now ≡ place_name self }
    {
        match self {
            Place::Signal => "the signal",
            Place::Reading => "a reading",
            Place::Times => "how often",
            Place::Offset => "the offset",
            Place::Value => "the value",
            Place::Length => "the block's length",
        }
    }

    /// What may stand there, in words.
    fn range(self) -> &'static str
        ensures { result.now ≡ range_text self }
    {
        match self {
            Place::Signal => "none, veto, clear or a number up to 255",
            Place::Reading | Place::Offset | Place::Value => "a number up to 65535",
            Place::Times => "a number from 1 to 64",
            Place::Length => "a number up to 64",
        }
    }
}

/// What is wrong with it.
#[derive(Clone, Copy, Debug, PartialEq, Eq)]
pub enum Flaw {
    Missing,
    NoNumber,
    OutOfRange,
}

impl Flaw {
    fn text(self) -> &'static str
        ensures { result.now ≡ flaw_text self }
    {
        match self {
            Flaw::Missing => "is missing",
            Flaw::NoNumber => "is not a number, decimal or after 0x",
            Flaw::OutOfRange => "is out of range",
        }
    }
}

/// Why a line is not understood: of several reasons the leftmost.
#[derive(Clone, Copy, Debug, PartialEq, Eq)]
pub enum Mistake {
    UnknownCall,
    /// The board's kind is missing, or neither `time` nor `charge`.
    BoardKind,
    Number(Place, Flaw),
    /// A part more than the line takes.
    Surplus,
    /// More than 256 on one line.
    TooManyReadings,
    /// A call before the line `board`.
    NoBoard,
    /// A second line `board`.
    SecondBoard,
}

impl Mistake {
    /// What is wrong, what is wrong with it, and what was expected.
    fn words(self) -> (&'static str, &'static str, &'static str)
        ensures subject { result.0.now ≡ subject_of self }
        ensures trouble { result.1.now ≡ trouble_of self }
        ensures wanted { result.2.now ≡ wanted_of self }
    {
        match self {
            Mistake::UnknownCall => (
                "the call",
                "is unknown",
                "board, gate, write, read, waiting or draw",
            ),
            Mistake::BoardKind => (
                "the board's kind",
                "is missing or unknown",
                "time or charge",
            ),
            Mistake::Number(place, flaw) => (place.name(), flaw.text(), place.range()),
            Mistake::Surplus => ("a part", "is left over", "the line's end before it"),
            Mistake::TooManyReadings => ("the readings", "are too many", "256 or fewer on a line"),
            Mistake::NoBoard => (
                "the board",
                "is not named yet",
                "board time or board charge first",
            ),
            Mistake::SecondBoard => ("the board", "is named already", "one board in a script"),
        }
    }
}

impl fmt::Display for Mistake {
    ghost output = { λ x. Some (reason_of x) };

    fn fmt<W: fmt::Write>(&self, f: &mut fmt::Formatter<W>) -> fmt::Result {
        let (subject, trouble, wanted) = self.words();
        write!(f, "{subject} {trouble}; expected {wanted}")
    }
}

impl Error for Mistake {}
