//! The lines of a script, put to one board.
#![tactic(auto)]

ghost use Rattle.std.specs.Prelude.{◌≡◌, ◌≤◌, min, length, Err};
ghost use Rattle.answers.specs.declared.refusal.Refusal.TheVariants.{NoStation};
ghost use Rattle.bank.specs.Banks.{asked, changed};
ghost use Rattle.bank.specs.Draws.{draw_answer, drawn};
ghost use Rattle.player.specs.Puts.{opened, block_into, draw_into, put_answer, put_after, taken, taken_after};
ghost use Rattle.script.specs.Lines.{parsed};

use answers::refusal::Refusal;
use bank::Bank;
use front_ends::kind::Kind;
use script::call::{Call, Line};
use script::mistake::Mistake;
use script::parse::parse;
use script_text::reply::{Answer, Drawn, MOST_WORDS};

/// A line before a board is named: the kind that it names, none of a blank line.
pub fn open(line: &[u8]) -> Result<Option<Kind>, Mistake>
    ensures { result ≡ opened (parsed line.now) }
{
    match parse(line)? {
        Line::Blank => Ok(None),
        Line::Board(kind) => Ok(Some(kind)),
        Line::Call(_) => Err(Mistake::NoBoard),
    }
}

/// Draws an event into the first words of the block.
fn draw_into<B: Bank>(bank: &mut B, block: &mut [u32], words: usize) -> Result<usize, Refusal>
    requires { words ≤ length block.old }
    ensures says { result ≡ asked (draw_answer words) (Err NoStation) (B.Bank.boards bank.old) 0 }
    ensures block { block.new ≡ asked (block_into words block.old) block.old (B.Bank.boards bank.old) 0 }
    ensures leaves { B.Bank.boards bank.new ≡ changed (drawn words) (B.Bank.boards bank.old) 0 }
{
    bank.draw(0, &mut block[0..words])
}

/// Draws an event into a block of so many words.
fn draw<B: Bank>(bank: &mut B, words: usize) -> Result<Drawn, Refusal>
    ensures says { result ≡ draw_into (min words 64) (B.Bank.boards bank.old) }
    ensures leaves { B.Bank.boards bank.new ≡ changed (drawn (min words 64)) (B.Bank.boards bank.old) 0 }
{
    let mut block = [0; MOST_WORDS];
    let count = draw_into(bank, &mut block, words.min(MOST_WORDS))?;
    Ok(Drawn { block, count })
}

/// Puts a call to the first station of a bank.
fn put<B: Bank>(bank: &mut B, call: Call) -> Answer
    ensures says { result ≡ put_answer call (B.Bank.boards bank.old) }
    ensures leaves { B.Bank.boards bank.new ≡ put_after call (B.Bank.boards bank.old) }
{
    match call {
        Call::Gate { signal, readings } => Answer::Gate(bank.gate(0, signal, readings.as_slice())),
        Call::Write { offset, value } => Answer::Write {
            offset,
            result: bank.write(0, offset, value),
        },
        Call::Read { offset } => Answer::Read {
            offset,
            result: bank.read(0, offset),
        },
        Call::Waiting => Answer::Waiting(bank.waiting(0)),
        Call::Draw { words } => Answer::Draw(draw(bank, words)),
    }
}

/// A line after a board was named: what the board answers or why the line is not understood, none of a blank line.
pub fn take<B: Bank>(bank: &mut B, line: &[u8]) -> Option<Result<Answer, Mistake>>
    ensures says { result ≡ taken (parsed line.now) (B.Bank.boards bank.old) }
    ensures leaves { B.Bank.boards bank.new ≡ taken_after (parsed line.now) (B.Bank.boards bank.old) }
{
    match parse(line) {
        Ok(Line::Blank) => None,
        Ok(Line::Board(_)) => Some(Err(Mistake::SecondBoard)),
        Ok(Line::Call(call)) => Some(Ok(put(bank, call))),
        Err(mistake) => Some(Err(mistake)),
    }
}
