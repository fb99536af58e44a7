//! The mode word.

ghost use Rattle.std.specs.Prelude.{◌≡◌};
ghost use Rattle.settings.specs.Modes.{stands, step_of, names_only, carried, with_set, with_cleared, SetBits, ClearedBits};

use bits::bit;
use front_ends::step::Step;

/// The bits of the mode word that have a meaning, each with its place there.
#[derive(Clone, Copy)]
pub enum ModeBit {
    Offline = 1,
    ClearData = 2,
    OverRange = 3,
    LowThreshold = 4,
    SlideEnable = 7,
    Step = 8,
    AutoIncr = 11,
    Empty = 12,
    AllTrg = 14,
}

/// How a board behaves, one bit for each choice.
#[derive(Clone, Copy)]
pub struct Mode {
    pub word: u16,
}

/// The bits that every board carries.
const CARRIED: u16 = 1 << ModeBit::Offline as u16
    | 1 << ModeBit::ClearData as u16
    | 1 << ModeBit::OverRange as u16
    | 1 << ModeBit::LowThreshold as u16
    | 1 << ModeBit::SlideEnable as u16
    | 1 << ModeBit::Empty as u16
    | 1 << ModeBit::AllTrg as u16;

/// The same, and STEP.
const CARRIED_WITH_STEP: u16 = CARRIED | 1 << ModeBit::Step as u16;

impl Mode {
    /// AUTO INCR, SLIDE ENABLE and ALL TRG stand at power-on.
    pub const POWER_ON: Mode = Mode {
        word: 1 << ModeBit::AutoIncr as u16
            | 1 << ModeBit::SlideEnable as u16
            | 1 << ModeBit::AllTrg as u16,
    };

    /// Whether the bit is 1.
    pub fn stands(self, choice: ModeBit) -> bool
        ensures { result ≡ stands choice self }
    {
        bit(u32::from(self.word), choice as u32)
    }

    /// The step in which thresholds count.
    pub(crate) fn step(self) -> Step
        ensures { result ≡ step_of self }
    {
        if self.stands(ModeBit::Step) {
            Step::Fine
        } else {
            Step::Coarse
        }
    }

    /// The mode with the bits 1 that are 1 in the value.
    #[tactic(auto, using(bits::proofs::BitLaws::has_or))]
    pub fn with_set(self, value: u16) -> Mode
        ensures is { result ≡ with_set self value }
        ensures bits { SetBits self value result }
    {
        Mode {
            word: self.word | value,
        }
    }

    /// The mode with the bits 0 that are 1 in the value.
    #[tactic(auto, using(crate::proofs::ModeLaws::cleared_bit))]
    pub fn with_cleared(self, value: u16) -> Mode
        ensures is { result ≡ with_cleared self value }
        ensures bits { ClearedBits self value result }
    {
        Mode {
            word: self.word & !value,
        }
    }
}

/// Whether each bit that is 1 in the value is one that the board carries. STEP is carried by some boards only.
// The flag is the front end's own answer.
pub fn carries(step: bool, value: u16) -> bool
    ensures { result ≡ names_only (carried step) value }
{
    let carried = if step { CARRIED_WITH_STEP } else { CARRIED };
    value | carried == carried
}
