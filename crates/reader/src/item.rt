//! What a reader finds in a run.

/// An item of a run.
#[derive(Clone, Copy, PartialEq, Eq, Debug)]
pub enum Item<'a> {
    /// An event, with its data words as a part of the run.
    Event {
        geo: u8,
        crate_number: u8,
        number: u32,
        data_words: &'a [u32],
    },
    /// A filler word.
    Filler(u32),
}

/// An item, and the place after it.
#[derive(Clone, Copy, PartialEq, Eq, Debug)]
pub struct Found<'a> {
    pub item: Item<'a>,
    pub next: usize,
}
