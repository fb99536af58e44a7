//! Registers, written.

ghost use Rattle.std.specs.Prelude.{◌≡◌, if◌then◌else◌, Ok, Err, nat_le};
ghost use Rattle.answers.specs.declared.refusal.Refusal.TheVariants.{Value};
ghost use Rattle.bank.specs.Boards.{changed_by};
ghost use Rattle.bank.specs.Writes.{names_carried, software_reset, write_at};
ghost use Rattle.settings.specs.Registers.{register_at};
ghost use Rattle.settings.specs.declared.register.Register.TheVariants as register;
ghost use Rattle.board.specs.Played.{board_of, Did, Wrote};

use crate::board::Board;
use answers::refusal::Refusal;
use front_ends::front_end::FrontEnd;
use settings::mode::{Mode, ModeBit, carries};
use settings::register::Register;
use settings::settings::Settings;
use settings::threshold::Threshold;
use words::word::GEOS;

/// The highest GEO.
const MOST_GEO: u8 = GEOS - 1;

/// The highest crate.
const MOST_CRATE: u8 = 255;

/// The value of a register that has 8 bits or fewer, refused where it exceeds its limit.
fn within(value: u16, most: u8) -> Result<u8, Refusal>
    ensures { result ≡ (if nat_le value most then Ok value else Err Value) }
{
    if value > u16::from(most) {
        return Err(Refusal::Value);
    }
    Ok(value as u8)
}

impl<F: FrontEnd> Board<F> {
    /// Refuses a value that names a mode bit that the board does not carry.
    fn check_carried(&self, value: u16) -> Result<(), Refusal>
        ensures { result ≡ (if names_carried value (board_of self.now) then Ok tt else Err Value) }
    {
        if !carries(self.front.carries_step(), value) {
            return Err(Refusal::Value);
        }
        Ok(())
    }

    /// Sets mode bits. Where the value names CLEAR DATA, the events are struck, and then, if ALL TRG is 0, the counter
    /// starts again.
    fn set_mode(&mut self, value: u16) -> Result<(), Refusal>
        ensures { Wrote register.Mode value self.old self.new result }
    {
        self.check_carried(value)?;
        let mode = self.settings.mode.with_set(value);
        self.settings.mode = mode;
        if (Mode { word: value }).stands(ModeBit::ClearData) {
            self.buffer.strike_all();
            if !mode.stands(ModeBit::AllTrg) {
                self.counter = 0;
            }
        }
        Ok(())
    }

    fn clear_mode(&mut self, value: u16) -> Result<(), Refusal>
        ensures { Wrote register.ModeClear value self.old self.new result }
    {
        self.check_carried(value)?;
        self.settings.mode = self.settings.mode.with_cleared(value);
        Ok(())
    }

    /// Mode, crate and counter go back to power-on, and the events are struck. GEO and thresholds survive.
    #[tactic(auto, unfolding(bits::specs::Bits::has))]
    fn software_reset(&mut self)
        ensures { board_of self.new ≡ changed_by (software_reset (board_of self.old)) (board_of self.old) }
    {
        self.settings.mode = Settings::POWER_ON.mode;
        self.settings.crate_number = Settings::POWER_ON.crate_number;
        self.counter = 0;
        self.buffer.strike_all();
    }

    fn write_threshold(&mut self, tag: u8, value: u16) -> Result<(), Refusal>
        ensures { Wrote (register.Threshold tag) value self.old self.new result }
    {
        let slot = self.front.slot(tag).ok_or(Refusal::NoRegister)?;
        let threshold = Threshold::try_from(value)?;
        self.settings.thresholds[slot as usize] = threshold;
        Ok(())
    }

    pub(crate) fn write_register(&mut self, offset: u16, value: u16) -> Result<(), Refusal>
        ensures { Did (write_at value (board_of self.old) (register_at offset)) (board_of self.old) (board_of self.new) result }
    {
        match Register::at(offset).ok_or(Refusal::NoRegister)? {
            Register::Geo => self.settings.geo = within(value, MOST_GEO)?,
            Register::SoftwareReset => self.software_reset(),
            Register::Skip => self.buffer.strike_first()?,
            Register::Mode => self.set_mode(value)?,
            Register::ModeClear => self.clear_mode(value)?,
            Register::Crate => self.settings.crate_number = within(value, MOST_CRATE)?,
            Register::CounterReset => self.counter = 0,
            Register::Threshold { tag } => self.write_threshold(tag, value)?,
            Register::Status | Register::CounterLow | Register::CounterHigh => {
                return Err(Refusal::NoRegister);
            }
        }
        Ok(())
    }
}
