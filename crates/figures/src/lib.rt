//! The worked examples of the rules, proved of the definitions that the contracts of this repository cite.
#![tactic(auto)]

ghost use Rattle.std.specs.Prelude.{◌≡◌};
ghost use Rattle.words.specs.Events.{words};
ghost use Rattle.figures.specs.Figures.{two_readings, Figures};

/// The words of the event that the examples share: GEO 3, crate 5, number 7, tag 4 with count 100 and tag 5 with
/// count 800. Its contract carries every worked example.
#[tactic(auto, unfolding(bits::specs::Bits::has, settings::specs::Judging::judged))]
pub fn worked_example() -> [u32; 4]
    ensures is { result ≡ words two_readings }
    ensures figures { Figures }
{
    [0x1A05_0200, 0x1804_0064, 0x1805_0320, 0x1C00_0007]
}
