//! One event of the buffer.

use settings::judge::Judged;

/// Where an event comes from, which of the board's slots were kept, and their readings by slot number. It is read
/// through masks, so that any content means a lawful event.
#[derive(Clone, Copy)]
pub struct EventSlot {
    pub geo: u8,
    pub crate_number: u8,
    pub number: u32,
    pub kept: u32,
    pub readings: [Judged; 32],
}
