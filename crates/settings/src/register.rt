//! The registers of a board, and where they stand.

ghost use Rattle.std.specs.Prelude.{◌≡◌};
ghost use Rattle.settings.specs.Registers.{register_at, RegisterIs};

/// A register of a board.
#[derive(Clone, Copy)]
pub enum Register {
    Geo,
    Status,
    /// A write of any value resets mode, crate, counter and events.
    SoftwareReset,
    CounterLow,
    CounterHigh,
    /// A write of any value strikes the first waiting event.
    Skip,
    /// Read, the mode. A write sets the bits that are 1 in the value.
    Mode,
    /// A write clears the mode bits that are 1 in the value.
    ModeClear,
    Crate,
    /// A write of any value puts the counter to 0.
    CounterReset,
    /// The threshold of a tag, which the front end may have or not.
    Threshold { tag: u8 },
}

impl Register {
    /// The register at an offset, or none.
    // No TryFrom: an address is looked up, and of the answer it is said too that it is exact.
    pub fn at(offset: u16) -> Option<Register>
        ensures is { result ≡ register_at offset }
        ensures exact { RegisterIs offset result }
    {
        match offset {
            0x1002 => Some(Register::Geo),
            0x100E => Some(Register::Status),
            0x1016 => Some(Register::SoftwareReset),
            0x1024 => Some(Register::CounterLow),
            0x1026 => Some(Register::CounterHigh),
            0x1028 => Some(Register::Skip),
            0x1032 => Some(Register::Mode),
            0x1034 => Some(Register::ModeClear),
            0x103C => Some(Register::Crate),
            0x1040 => Some(Register::CounterReset),
            0x1080..=0x10BE if offset % 2 == 0 => Some(Register::Threshold {
                tag: ((offset - 0x1080) / 2) as u8,
            }),
            _ => None,
        }
    }
}
