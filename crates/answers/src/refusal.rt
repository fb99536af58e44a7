//! Why a call is turned away.

ghost use Rattle.std.specs.Prelude.{◌≡◌, Some};
ghost use Rattle.answers.specs.Refusals.{number_of, cause_of, refused_text};

use std::error::Error;
use std::fmt;

/// The reasons for which a bank turns a call away. What is turned away changes nothing, but for a gate that is
/// counted all the same.
#[derive(Clone, Copy, Debug, PartialEq, Eq)]
pub enum Refusal {
    /// The station is not below the answered number of stations.
    NoStation,
    /// The gate does not bring one reading for each slot.
    ReadingCount,
    /// Bits 15 to 13 of a reading are not zero.
    ReadingBits,
    /// The signal is neither 0, 1 nor 2.
    UnknownSignal,
    /// No register stands at the offset for this access, or the front end lacks the threshold's tag.
    NoRegister,
    /// The value exceeds its limit, or names a mode bit that the board does not carry.
    Value,
    /// The block is under 34 words.
    BlockShort,
    /// The gate was vetoed.
    Veto,
    /// Mode bit CLEAR DATA stands.
    ClearData,
    /// Mode bit OFFLINE stands.
    Offline,
    /// 32 events wait.
    Full,
    /// The gate was cleared.
    FastClear,
    /// No event waits.
    NothingWaits,
}

impl Refusal {
    /// The number by which users know the refusal.
    pub fn number(self) -> u8
        ensures { result ≡ number_of self }
    {
        match self {
            Refusal::NoStation => 1,
            Refusal::ReadingCount => 2,
            Refusal::ReadingBits => 3,
            Refusal::UnknownSignal => 4,
            Refusal::NoRegister => 5,
            Refusal::Value => 6,
            Refusal::BlockShort => 8,
            Refusal::Veto => 21,
            Refusal::ClearData => 22,
            Refusal::Offline => 23,
            Refusal::Full => 24,
            Refusal::FastClear => 25,
            Refusal::NothingWaits => 26,
        }
    }

    /// Why the call is turned away, without the number.
    fn why(self) -> &'static str
        ensures { result.now ≡ cause_of self }
    {
        match self {
            Refusal::NoStation => "no such station",
            Refusal::ReadingCount => "not one reading for each slot",
            Refusal::ReadingBits => "a reading exceeds 8191",
            Refusal::UnknownSignal => "the signal is not 0, 1 or 2",
            Refusal::NoRegister => "no such register for this access",
            Refusal::Value => {
                "the value exceeds its limit or names a mode bit that the board lacks"
            }
            Refusal::BlockShort => "the block is under 34 words",
            Refusal::Veto => "veto",
            Refusal::ClearData => "mode bit CLEAR DATA stands",
            Refusal::Offline => "mode bit OFFLINE stands",
            Refusal::Full => "32 events wait",
            Refusal::FastClear => "fast clear",
            Refusal::NothingWaits => "no event waits",
        }
    }
}

impl fmt::Display for Refusal {
    ghost output = { λ x. Some (refused_text x) };

    fn fmt<W: fmt::Write>(&self, f: &mut fmt::Formatter<W>) -> fmt::Result {
        let number = self.number();
        let cause = self.why();
        write!(f, "refused {number}: {cause}")
    }
}

impl Error for Refusal {}
