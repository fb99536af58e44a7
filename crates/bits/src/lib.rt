//! Single bits of a word of 32. Bit 0 is the lowest.
#![tactic(auto)]

ghost use Rattle.std.specs.Prelude.{◌≡◌, ◌<◌};
ghost use Rattle.bits.specs.Bits.{has, Sets};

/// Whether a bit of the word is 1. There is none past bit 31.
pub fn bit(word: u32, place: u32) -> bool
    ensures { result ≡ has word place }
{
    place < 32 && word >> place & 1 == 1
}

/// The word with that bit 1 and the others as they are. A place past bit 31 changes nothing.
pub fn with_bit(word: u32, place: u32) -> u32
    ensures { Sets word place result }
{
    if place < 32 { word | 1 << place } else { word }
}
