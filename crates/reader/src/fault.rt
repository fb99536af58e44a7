//! What can be wrong with a run, layer upon layer, and what a reader refuses.

ghost use Rattle.std.specs.Prelude.{◌≡◌, Some};
ghost use Rattle.reader.specs.declared.fault.EventFault.TheVariants.{Word};
ghost use Rattle.reader.specs.declared.fault.RunFault.TheVariants.{Event};
ghost use Rattle.reader.specs.declared.fault.Refusal.TheVariants.{Fault};
ghost use Rattle.reader.specs.Faults.{event_report, run_report, refusal_number, refusal_place, event_text, run_text, refusal_text};

use std::error::Error;
use std::fmt;
use words::fault::{Due, Layer, Report, Spot, WordFault};

/// A fault of the event layer.
#[derive(Clone, Copy, PartialEq, Eq, Debug)]
pub enum EventFault {
    Word(WordFault),
    /// The GEO is not the header's.
    Geo(Spot),
    /// The header tells of more than 32 readings.
    TooMany(Spot),
    /// The tag stands in the event already.
    Twice(Spot),
    /// The run ends inside the event, where this word is due.
    CutShort(Due, Spot),
}

/// A fault of the run layer.
#[derive(Clone, Copy, PartialEq, Eq, Debug)]
pub enum RunFault {
    Event(EventFault),
    /// The front end has no such tag.
    NoSuchTag(Spot),
}

/// Why a reader turned a call away.
#[derive(Clone, Copy, PartialEq, Eq, Debug)]
pub enum Refusal {
    /// The record space is under 256 bytes.
    SpaceShort,
    /// The run exceeds 16,384 words.
    TooLong,
    /// The place is past the run's end.
    PastEnd,
    Fault(RunFault),
}

impl From<WordFault> for EventFault {
    ghost from_gives = { λ e r. r ≡ Word e };

    fn from(word: WordFault) -> EventFault {
        EventFault::Word(word)
    }
}

impl From<EventFault> for RunFault {
    ghost from_gives = { λ e r. r ≡ Event e };

    fn from(event: EventFault) -> RunFault {
        RunFault::Event(event)
    }
}

impl From<RunFault> for Refusal {
    ghost from_gives = { λ e r. r ≡ Fault e };

    fn from(run: RunFault) -> Refusal {
        Refusal::Fault(run)
    }
}

impl EventFault {
    /// The number, the layer and the places of the fault.
    pub fn report(&self) -> Report
        ensures { result ≡ event_report self.now }
    {
        match self {
            EventFault::Word(fault) => fault.report(),
            EventFault::Geo(spot) => spot.report(13, Layer::Event),
            EventFault::TooMany(spot) => spot.report(14, Layer::Event),
            EventFault::Twice(spot) => spot.report(15, Layer::Event),
            EventFault::CutShort(_, spot) => spot.report(16, Layer::Event),
        }
    }
}

impl RunFault {
    /// The number, the layer and the places of the fault.
    pub fn report(&self) -> Report
        ensures { result ≡ run_report self.now }
    {
        match self {
            RunFault::Event(fault) => fault.report(),
            RunFault::NoSuchTag(spot) => spot.report(17, Layer::Run),
        }
    }
}

impl Refusal {
    /// 7, 9, 10, or the fault's.
    pub fn number(&self) -> u8
        ensures { result ≡ refusal_number self.now }
    {
        match self {
            Refusal::SpaceShort => 7,
            Refusal::TooLong => 9,
            Refusal::PastEnd => 10,
            Refusal::Fault(fault) => fault.report().number,
        }
    }

    /// The place of the word at fault, 0 where no word is: the record of a fault shows it so.
    pub fn place(&self) -> u16
        ensures { result ≡ refusal_place self.now }
    {
        match self {
            Refusal::Fault(fault) => fault.report().place,
            _ => 0,
        }
    }
}

impl fmt::Display for EventFault {
    ghost output = { λ x. Some (event_text x) };

    fn fmt<W: fmt::Write>(&self, f: &mut fmt::Formatter<W>) -> fmt::Result {
        f.write_str(match self {
            EventFault::Word(fault) => return write!(f, "{fault}"),
            EventFault::Geo(_) => "GEO differs; expected that of the event's header",
            EventFault::TooMany(_) => "the header tells of too many readings; expected 32 or fewer",
            EventFault::Twice(_) => "the tag was used in this event; expected one that was not",
            EventFault::CutShort(Due::Datum, _) =>
                "the run ends inside the event; expected a datum",
            EventFault::CutShort(_, _) => "the run ends inside the event; expected its end",
        })
    }
}

impl fmt::Display for RunFault {
    ghost output = { λ x. Some (run_text x) };

    fn fmt<W: fmt::Write>(&self, f: &mut fmt::Formatter<W>) -> fmt::Result {
        match self {
            RunFault::Event(fault) => write!(f, "{fault}"),
            RunFault::NoSuchTag(_) => {
                f.write_str("the board has no such tag; expected one of its own")
            }
        }
    }
}

impl fmt::Display for Refusal {
    ghost output = { λ x. Some (refusal_text x) };

    fn fmt<W: fmt::Write>(&self, f: &mut fmt::Formatter<W>) -> fmt::Result {
        f.write_str(match self {
            Refusal::SpaceShort => "the record space is under 256 bytes",
            Refusal::TooLong => "the run exceeds 16384 words",
            Refusal::PastEnd => "the place is past the run's end",
            Refusal::Fault(fault) => return write!(f, "{fault}"),
        })
    }
}

impl Error for EventFault {}

impl Error for RunFault {}

impl Error for Refusal {}
