//! The signal of a gate.

ghost use Rattle.board.specs.Signals.{SignalIs};

use answers::refusal::Refusal;

/// What comes with the readings of a gate.
#[derive(Clone, Copy, PartialEq, Eq)]
pub enum Signal {
    None,
    Veto,
    FastClear,
}

impl TryFrom<u8> for Signal {
    type Error = Refusal;

    ghost try_from_gives = { SignalIs };

    fn try_from(number: u8) -> Result<Signal, Refusal> {
        match number {
            0 => Ok(Signal::None),
            1 => Ok(Signal::Veto),
            2 => Ok(Signal::FastClear),
            _ => Err(Refusal::UnknownSignal),
        }
    }
}
