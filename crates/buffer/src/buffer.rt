//! The buffer.

use crate::pointers::Pointers;
use crate::slot::EventSlot;

mod calls;

/// 32 slots for events, used round and round.
#[derive(Clone, Copy)]
pub struct Buffer {
    slots: [EventSlot; 32],
    pointers: Pointers,
}
