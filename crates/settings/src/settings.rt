//! What a board is set to.

use crate::mode::Mode;
use crate::threshold::Threshold;

/// The mode, the place of the board (GEO and crate), and a threshold for each slot.
#[derive(Clone, Copy)]
pub struct Settings {
    pub mode: Mode,
    pub geo: u8,
    pub crate_number: u8,
    pub thresholds: [Threshold; 32],
}

impl Settings {
    /// As the board is switched on.
    pub const POWER_ON: Settings = Settings {
        mode: Mode::POWER_ON,
        geo: 31,
        crate_number: 0,
        thresholds: [Threshold::POWER_ON; 32],
    };
}
