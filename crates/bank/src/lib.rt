//! A bank: one board or more, reached by station. What the boards do, call by call, is in specs/.
#![tactic(auto)]

ghost use Rattle.std.specs.Prelude.{◌≡◌, ◌≤◌, List, length, Err};
ghost use Rattle.std.specs.List.{AllByRecursion};
ghost use Rattle.answers.specs.declared.refusal.Refusal.TheVariants.{NoStation};
ghost use Rattle.bank.specs.Banks.{reached, asked, changed};
ghost use Rattle.bank.specs.Boards.{Board, LawfulBoard};
ghost use Rattle.bank.specs.Draws.{waiting_answer, draw_answer, drawn, block_drawn};
ghost use Rattle.bank.specs.Gates.{gate_answer, gated};
ghost use Rattle.bank.specs.Reads.{read_answer};
ghost use Rattle.bank.specs.Writes.{write_answer, written};

use answers::refusal::Refusal;

/// Every kind of bank means a list of boards. Each call does to the board of its station what the rules say, and
/// nothing to another. Stations past the answered number are not reached.
// What each call says is written out call by call: the law is one, and of each call another answer and change.
pub trait Bank {
    ghost boards: { Self → List Board };

    /// How many stations are answered, 21 at most.
    fn stations(&self) -> usize
        ensures { result ≡ reached (boards self.now) };

    /// A gate brings a reading for each slot, in slot order, and a signal: 0 none, 1 veto, 2 fast clear. Answers how many
    /// readings the stored event keeps, or none where nothing is stored (and then nothing is kept).
    // The signal is a number: a caller may put any, and 3 and more are refused.
    fn gate(&mut self, station: usize, signal: u8, readings: &[u16]) -> Result<Option<u8>, Refusal>
        ensures says { result ≡ asked (gate_answer signal readings.now) (Err NoStation) (boards self.old) station }
        ensures leaves { boards self.new ≡ changed (gated signal readings.now) (boards self.old) station };

    /// Writes a register.
    fn write(&mut self, station: usize, offset: u16, value: u16) -> Result<(), Refusal>
        ensures says { result ≡ asked (write_answer offset value) (Err NoStation) (boards self.old) station }
        ensures leaves { boards self.new ≡ changed (written offset value) (boards self.old) station };

    /// Reads a register.
    fn read(&self, station: usize, offset: u16) -> Result<u16, Refusal>
        ensures { result ≡ asked (read_answer offset) (Err NoStation) (boards self.now) station };

    /// How many events wait.
    fn waiting(&self, station: usize) -> Result<usize, Refusal>
        ensures { result ≡ asked waiting_answer (Err NoStation) (boards self.now) station };

    /// Takes the first waiting event: its words go to the front of the block, and their number is the answer.
    fn draw(&mut self, station: usize, block: &mut [u32]) -> Result<usize, Refusal>
        ensures says { result ≡ asked (draw_answer (length block.old)) (Err NoStation) (boards self.old) station }
        ensures leaves { boards self.new ≡ changed (drawn (length block.old)) (boards self.old) station }
        ensures block { block.new ≡ asked (block_drawn block.old) block.old (boards self.old) station };

    ghost some: { (b : Self) → 1 ≤ length (boards b) };

    ghost lawful: { (b : Self) → AllByRecursion LawfulBoard (boards b) };
}
