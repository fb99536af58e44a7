//! What every kind of front end answers.

ghost use Rattle.std.specs.Prelude.{◌≡◌, length};
ghost use Rattle.front_ends.specs.Fronts.{Front, Lawful, tag_at, slot_of, SlotIs};

use crate::step::Step;

/// A kind of converter: its slots in readout order, the tag of each, and where it draws the line under which
/// a count is under threshold. The questions change nothing.
pub trait FrontEnd {
    ghost meaning: { Self → Front };

    /// How many slots there are, 1 to 32.
    fn slots(&self) -> u8
        ensures { result ≡ length (meaning self.now).tags };

    /// The tag of a slot, or none where there is no such slot.
    fn tag(&self, slot: u8) -> Option<u8>
        ensures { result ≡ tag_at (meaning self.now) slot };

    /// The slot of a tag, or none where no slot has it.
    fn slot(&self, tag: u8) -> Option<u8>
        ensures is { result ≡ slot_of (meaning self.now) tag }
        ensures exact { SlotIs (meaning self.now) tag result };

    /// Whether the board's mode word has the STEP bit.
    fn carries_step(&self) -> bool
        ensures { result ≡ (meaning self.now).carries_step };

    /// The lowest count that is not under threshold.
    fn floor(&self, step: Step, threshold: u8) -> u16
        ensures { result ≡ (meaning self.now).floor step threshold };

    ghost lawful: { (x : Self) → Lawful (meaning x) };
}
