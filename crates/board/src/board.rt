//! The board.

ghost use Rattle.std.specs.Prelude.{◌≡◌, ◌^◌, ◌<◌, true, length};
ghost use Rattle.settings.specs.Thresholds.{levels_in_range};
ghost use Rattle.bits.specs.Bits.{has};

use buffer::buffer::Buffer;
use front_ends::front_end::FrontEnd;
use settings::settings::Settings;

mod gates;
mod reads;
mod station;
mod writes;

/// A board of any front end: its settings, its event counter of 24 bits, and the events that wait.
// No `Model`: its value would hold a front end's floors, and a function has no code.
#[derive(Drop)]
pub struct Board<F: FrontEnd> {
    front: F,
    settings: Settings,
    counter: u32,
    buffer: Buffer,
    ghost geo_fits: { settings.geo < 32 },
    ghost crate_fits: { settings.crate_number < 256 },
    ghost mode_fits: { settings.mode.word < 2 ^ 16 },
    ghost thresholds_there: { length settings.thresholds ≡ 32 },
    ghost levels_fit: { levels_in_range settings.thresholds ≡ true },
    ghost counter_fits: { counter < 2 ^ 24 },
    ghost auto_incr: { has settings.mode.word 11 ≡ true },
}
