//! One board is a bank of one station.

ghost use Rattle.std.specs.Prelude.{◌≡◌, if◌then◌else◌, [], ◌∷◌, Ok, Err, nat_lt};
ghost use Rattle.answers.specs.declared.refusal.Refusal.TheVariants.{NoStation};
ghost use Rattle.bank.specs.Boards.{power_on};
ghost use Rattle.buffer.specs.Buffers.{AtStart};
ghost use Rattle.board.specs.Played.{board_of};
ghost use Rattle.buffer.proofs.Lawfulness.{events_lawful, events_few};
ghost use Rattle.std.proofs.Common.{lit≤};

use crate::board::Board;
use answers::refusal::Refusal;
use bank::Bank;
use buffer::buffer::Buffer;
use front_ends::front_end::FrontEnd;
use settings::settings::Settings;

/// Refuses any station but the first, which is the only one.
fn reach(station: usize) -> Result<(), Refusal>
    ensures { result ≡ (if nat_lt station 1 then Ok tt else Err NoStation) }
{
    if station > 0 {
        return Err(Refusal::NoStation);
    }
    Ok(())
}

impl<F: FrontEnd> Board<F> {
    /// A board of that front end, switched on.
    #[tactic(auto, unfolding(bits::specs::Bits::has))]
    pub fn new(front: F) -> Board<F>
        ensures is { board_of result ≡ power_on (F.FrontEnd.meaning front) }
        ensures starts { AtStart result.buffer }
    {
        Board {
            front,
            settings: Settings::POWER_ON,
            counter: 0,
            buffer: Buffer::EMPTY,
        }
    }
}

impl<F: FrontEnd> Bank for Board<F> {
    ghost boards = { λ b. board_of b ∷ [] };

    ghost some = { λ _. lit≤ tt };

    ghost lawful = { λ b.
        let front = F.FrontEnd.lawful b.front in
        let f = F.FrontEnd.meaning b.front in
        (record { front_lawful = front; geo_fits = b.geo_fits; crate_fits = b.crate_fits; mode_fits = b.mode_fits; thresholds_there = b.thresholds_there; levels_in_range = b.levels_fit; counter_fits = b.counter_fits; auto_incr = b.auto_incr; few = events_few f b.buffer; events_lawful = events_lawful f b.buffer front }, tt) };

    fn stations(&self) -> usize {
        1
    }

    fn gate(
        &mut self,
        station: usize,
        signal: u8,
        readings: &[u16],
    ) -> Result<Option<u8>, Refusal> {
        reach(station)?;
        self.put_gate(signal, readings)
    }

    fn write(&mut self, station: usize, offset: u16, value: u16) -> Result<(), Refusal> {
        reach(station)?;
        self.write_register(offset, value)
    }

    fn read(&self, station: usize, offset: u16) -> Result<u16, Refusal> {
        reach(station)?;
        self.read_register(offset)
    }

    fn waiting(&self, station: usize) -> Result<usize, Refusal> {
        reach(station)?;
        Ok(self.buffer.waiting())
    }

    fn draw(&mut self, station: usize, block: &mut [u32]) -> Result<usize, Refusal> {
        reach(station)?;
        self.buffer.draw(&self.front, block)
    }
}
