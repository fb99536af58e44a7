//! The threshold of one slot.

ghost use Rattle.std.specs.Prelude.{◌≡◌, ok_or};
ghost use Rattle.answers.specs.declared.refusal.Refusal.TheVariants.{Value};
ghost use Rattle.settings.specs.Thresholds.{threshold_of, value_of, ThresholdAgain};

use answers::refusal::Refusal;

/// The level below which a count is under threshold, in units that the front end and the mode give, and KILL,
/// which keeps nothing of the slot.
#[derive(Clone, Copy)]
pub struct Threshold {
    pub level: u8,
    // A flag beside the level, which stays under it: the register shows both.
    pub kill: bool,
}

/// The highest value of a threshold's register.
const MOST: u16 = 511;

/// Bit 8 of the register, above the levels.
const KILL: u16 = 256;

impl Threshold {
    pub const POWER_ON: Threshold = Threshold {
        level: 0,
        kill: false,
    };
}

/// The threshold that a register value means, bits 7 to 0 the level and bit 8 KILL; a value over 511 is refused.
impl TryFrom<u16> for Threshold {
    type Error = Refusal;

    ghost try_from_gives = { λ v r. (r ≡ ok_or (threshold_of v) Value) × ThresholdAgain v r };

    fn try_from(value: u16) -> Result<Threshold, Refusal> {
        if value > MOST {
            return Err(Refusal::Value);
        }
        Ok(Threshold {
            level: (value % KILL) as u8,
            kill: value >= KILL,
        })
    }
}

/// The value that the threshold's register shows.
impl From<Threshold> for u16 {
    ghost from_gives = { λ t v. v ≡ value_of t };

    fn from(threshold: Threshold) -> u16 {
        u16::from(threshold.level) + KILL * u16::from(threshold.kill)
    }
}
