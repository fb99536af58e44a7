//! Where the buffer is read and written.

ghost use Rattle.std.specs.Prelude.{◌≡◌, ◌+◌, ◌-◌, ◌%◌, ◌<◌, ◌≤◌};

/// The slots of the buffer: so many events wait at most.
pub const SLOTS: u8 = 32;

/// The slot of the first waiting event, the slot of the next one to come, and how many wait.
#[derive(Clone, Copy)]
pub struct Pointers {
    read: u8,
    write: u8,
    waiting: u8,
    ghost reads: { read < 32 },
    ghost few: { waiting ≤ 32 },
    ghost ring: { write ≡ (read + waiting) % 32 },
}

impl Pointers {
    /// Nothing waits.
    pub const START: Pointers = Pointers {
        read: 0,
        write: 0,
        waiting: 0,
    };

    pub(crate) fn read_at(self) -> usize
        ensures is { result ≡ self.read }
        ensures below { result < 32 }
    {
        self.read as usize
    }

    pub(crate) fn write_at(self) -> usize
        ensures is { result ≡ (self.read + self.waiting) % 32 }
        ensures below { result < 32 }
    {
        self.write as usize
    }

    pub(crate) fn waiting(self) -> u8
        ensures is { result ≡ self.waiting }
        ensures few { result ≤ 32 }
    {
        self.waiting
    }

    /// One more event waits.
    pub(crate) fn push(&mut self)
        requires { self.old.waiting < 32 }
        ensures read { self.new.read ≡ self.old.read }
        ensures waiting { self.new.waiting ≡ self.old.waiting + 1 }
    {
        self.write = (self.write + 1) % SLOTS;
        self.waiting += 1;
    }

    /// The first waiting event leaves.
    pub(crate) fn pop(&mut self)
        requires { 0 < self.old.waiting }
        ensures read { self.new.read ≡ (self.old.read + 1) % 32 }
        ensures waiting { self.new.waiting + 1 ≡ self.old.waiting }
    {
        self.read = (self.read + 1) % SLOTS;
        self.waiting -= 1;
    }
}
