//! Bytes as words, high byte first.

ghost use Rattle.std.specs.Prelude.{◌≡◌, Some};
ghost use Rattle.reader.specs.Packing.{pack_answer, pack_after, pack_number, pack_text};

use crate::run::MOST_WORDS;
use std::error::Error;
use std::fmt;

/// Why bytes are not packed. Each has number 9.
#[derive(Clone, Copy, PartialEq, Eq, Debug)]
pub enum PackRefusal {
    /// More than 16,384 words.
    TooLong,
    /// The bytes are not a multiple of 4: the last word is cut.
    CutWord,
    /// The words do not fit the space.
    SpaceShort,
}

impl PackRefusal {
    /// 9, whatever the reason.
    pub fn number(&self) -> u8
        ensures { result ≡ pack_number self.now }
    {
        match self {
            PackRefusal::TooLong | PackRefusal::CutWord | PackRefusal::SpaceShort => 9,
        }
    }
}

impl fmt::Display for PackRefusal {
    ghost output = { λ x. Some (pack_text x) };

    fn fmt<W: fmt::Write>(&self, f: &mut fmt::Formatter<W>) -> fmt::Result {
        f.write_str(match self {
            PackRefusal::TooLong => "the input is too long; expected 65536 bytes or fewer",
            PackRefusal::CutWord => "the input ends inside a word; expected a multiple of 4 bytes",
            PackRefusal::SpaceShort => "the words do not fit; expected a space as long as they are",
        })
    }
}

impl Error for PackRefusal {}

/// Writes the words of the bytes to the front of the space, and answers how many they are.
pub fn pack(bytes: &[u8], space: &mut [u32]) -> Result<usize, PackRefusal>
    ensures is { result ≡ pack_answer bytes.now space.old }
    ensures after { space.new ≡ pack_after bytes.now space.old }
{
    if bytes.len() > 4 * MOST_WORDS {
        return Err(PackRefusal::TooLong);
    }
    let (words, cut) = bytes.as_chunks::<4>();
    if !cut.is_empty() {
        return Err(PackRefusal::CutWord);
    }
    if words.len() > space.len() {
        return Err(PackRefusal::SpaceShort);
    }
    // By index: of a space that was written through a `zip` of its `iter_mut` a proof knows nothing afterwards.
    for (i, word) in words.iter().enumerate() {
        space[i] = u32::from_be_bytes(*word);
    }
    Ok(words.len())
}
