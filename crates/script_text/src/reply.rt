//! The line that tells what a line of a script came to.

ghost use Rattle.std.specs.Prelude.{◌≡◌, Some};
ghost use Rattle.script_text.specs.Replies.{drawn_of, block_text, answer_text, reply_text};

use crate::digits::Hex;
use answers::refusal::Refusal;
use script::mistake::Mistake;
use std::fmt;

/// The most words that a block has.
pub const MOST_WORDS: usize = 64;

/// A block, of which the first words were drawn.
// A block and a count: a vector of the library's is not `Copy`, and answers are copied.
#[derive(Clone, Copy)]
pub struct Drawn {
    pub block: [u32; MOST_WORDS],
    pub count: usize,
}

impl Drawn {
    /// The words that were drawn.
    pub fn as_slice(&self) -> &[u32]
        ensures { result.now ≡ drawn_of self.now }
    {
        &self.block[..self.count.min(MOST_WORDS)]
    }
}

impl fmt::Display for Drawn {
    ghost output = { λ x. Some (block_text x) };

    fn fmt<W: fmt::Write>(&self, f: &mut fmt::Formatter<W>) -> fmt::Result {
        let words = self.as_slice();
        let count = words.len();
        write!(f, "{count} words:")?;
        for word in words {
            write!(f, " {}", Hex::<4>::from(*word))?;
        }
        Ok(())
    }
}

/// What a board answers to a call.
#[derive(Clone, Copy)]
pub enum Answer {
    /// How many readings the stored event keeps, none if no event was stored.
    Gate(Result<Option<u8>, Refusal>),
    Write {
        offset: u16,
        result: Result<(), Refusal>,
    },
    Read {
        offset: u16,
        result: Result<u16, Refusal>,
    },
    Waiting(Result<usize, Refusal>),
    Draw(Result<Drawn, Refusal>),
}

/// What became of a line, by its number.
#[derive(Clone, Copy)]
pub struct Reply {
    pub line: u64,
    pub told: Result<Answer, Mistake>,
}

impl fmt::Display for Answer {
    ghost output = { λ x. Some (answer_text x) };

    // The pieces are handed on one by one: where a full buffer is written out, before or after drawn words, depends on them.
    fn fmt<W: fmt::Write>(&self, f: &mut fmt::Formatter<W>) -> fmt::Result {
        match self {
            Answer::Gate(Ok(Some(kept))) => write!(f, "gate: {}, {kept} kept", "stored"),
            Answer::Gate(Ok(None)) => write!(f, "gate: {}, {} kept", "not stored", "0"),
            Answer::Gate(Err(refusal)) => write!(f, "gate: {refusal}"),
            Answer::Write { offset, result } => {
                let offset = Hex::<2>::from(*offset);
                match result {
                    Ok(()) => write!(f, "write {offset}: {}", "done"),
                    Err(refusal) => write!(f, "write {offset}: {refusal}"),
                }
            }
            Answer::Read { offset, result } => {
                let offset = Hex::<2>::from(*offset);
                match result {
                    Ok(value) => write!(f, "read {offset}: {}", Hex::<2>::from(*value)),
                    Err(refusal) => write!(f, "read {offset}: {refusal}"),
                }
            }
            Answer::Waiting(Ok(count)) => write!(f, "waiting: {count}"),
            Answer::Waiting(Err(refusal)) => write!(f, "waiting: {refusal}"),
            Answer::Draw(Ok(drawn)) => write!(f, "draw: {drawn}"),
            Answer::Draw(Err(refusal)) => write!(f, "draw: {refusal}"),
        }
    }
}

impl fmt::Display for Reply {
    ghost output = { λ x. Some (reply_text x) };

    fn fmt<W: fmt::Write>(&self, f: &mut fmt::Formatter<W>) -> fmt::Result {
        let line = self.line;
        match &self.told {
            Ok(answer) => write!(f, "{line}: {answer}"),
            Err(mistake) => write!(f, "{line}: {}{mistake}", "not understood: "),
        }
    }
}
