//! The step of a threshold.

/// How many counts one unit of a threshold is worth. Mode bit STEP chooses it on boards that carry the bit.
#[derive(Clone, Copy)]
pub enum Step {
    /// STEP is 0, and on every board without the bit.
    Coarse,
    /// STEP is 1.
    Fine,
}
