//! Registers, read.

ghost use Rattle.std.specs.Prelude.{◌≡◌};
ghost use Rattle.bank.specs.Reads.{status, read_threshold, read_answer};
ghost use Rattle.front_ends.specs.Fronts.{slot_of};
ghost use Rattle.board.specs.Played.{board_of};

use crate::board::Board;
use answers::refusal::Refusal;
use buffer::SLOTS;
use front_ends::front_end::FrontEnd;
use settings::mode::ModeBit;
use settings::register::Register;

/// Status bit 0: an event waits.
const READY: u16 = 1;

/// Status bit 2: 32 events wait, or CLEAR DATA stands.
const BUSY: u16 = 4;

/// The counter is shown in two registers, its low bits and those above.
const LOW_BITS: u32 = 16;

impl<F: FrontEnd> Board<F> {
    fn status(&self) -> u16
        ensures { result ≡ status (board_of self.now) }
    {
        let waiting = self.buffer.waiting();
        let busy = waiting >= usize::from(SLOTS) || self.settings.mode.stands(ModeBit::ClearData);
        READY * u16::from(waiting > 0) + BUSY * u16::from(busy)
    }

    fn read_threshold(&self, tag: u8) -> Result<u16, Refusal>
        ensures { result ≡ read_threshold (board_of self.now) (slot_of (board_of self.now).front tag) }
    {
        let slot = self.front.slot(tag).ok_or(Refusal::NoRegister)?;
        Ok(u16::from(self.settings.thresholds[slot as usize]))
    }

    pub(crate) fn read_register(&self, offset: u16) -> Result<u16, Refusal>
        ensures { result ≡ read_answer offset (board_of self.now) }
    {
        match Register::at(offset).ok_or(Refusal::NoRegister)? {
            Register::Geo => Ok(u16::from(self.settings.geo)),
            Register::Status => Ok(self.status()),
            Register::CounterLow => Ok((self.counter % (1 << LOW_BITS)) as u16),
            Register::CounterHigh => Ok((self.counter >> LOW_BITS) as u16),
            Register::Mode => Ok(self.settings.mode.word),
            Register::Crate => Ok(u16::from(self.settings.crate_number)),
            Register::Threshold { tag } => self.read_threshold(tag),
            Register::SoftwareReset
            | Register::Skip
            | Register::ModeClear
            | Register::CounterReset => Err(Refusal::NoRegister),
        }
    }
}
