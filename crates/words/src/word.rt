//! Words of 32 bits, by their parts. Bit 0 is the lowest.
//!
//! | word   | 31..27 | 26..24 | 23..16 | 15..14 | 13..0 |
//! |--------|--------|--------|--------|--------|-------|
//! | header | GEO    | 010    | crate  | 0      | 13..8 number of readings, 7..0 zero |
//! | datum  | GEO    | 000    | 23..21 zero, 20..16 tag | 0 | 13 under, 12 over, 11..0 count |
//! | end    | GEO    | 100    | 23..0 event number ||
//! | filler | any    | 110    | any ||

ghost use Rattle.std.specs.Prelude.{◌≡◌, ◌<◌};
ghost use Rattle.words.specs.Words.{bits, word_bytes, make_header, make_datum, make_end, reading_of, word_kind, read_first, read_datum, read_end, Again, ReadsOnly, FirstIs, DatumIs, EndIs};

use crate::fault::{Due, Spot, WordCause, WordFault};

/// A GEO is below this.
pub const GEOS: u8 = 32;

/// An event's number is below this.
pub const NUMBERS: u32 = 1 << 24;

/// A count is below this.
pub const COUNTS: u16 = 1 << 12;

/// The words of the longest event: a header, 32 data and an end.
pub const LONGEST: usize = 34;

/// The word that begins an event.
#[derive(Clone, Copy, PartialEq, Eq, Debug)]
pub struct Header {
    pub geo: u8,
    pub crate_number: u8,
    pub readings: u8,
}

/// What one converter gave: where it was read, how it was judged, and its count. The word has a count whatever its
/// two bits say, so they are no `Option`.
#[derive(Clone, Copy, PartialEq, Eq, Debug)]
pub struct Reading {
    pub tag: u8,
    pub under: bool,
    pub over: bool,
    pub count: u16,
}

/// The word of one reading.
#[derive(Clone, Copy, PartialEq, Eq, Debug)]
pub struct Datum {
    pub geo: u8,
    pub reading: Reading,
}

/// The word that ends an event.
#[derive(Clone, Copy, PartialEq, Eq, Debug)]
pub struct End {
    pub geo: u8,
    pub number: u32,
}

/// What may stand where an event or a filler is due. No `Option`: a filler is a word, not the lack of one.
#[derive(Clone, Copy, PartialEq, Eq, Debug)]
pub enum First {
    Header(Header),
    Filler,
}

/// What bits 26 to 24 tell of a word.
#[derive(Clone, Copy)]
enum WordKind {
    Datum = 0,
    Header = 2,
    End = 4,
    Filler = 6,
}

impl WordKind {
    /// The kind of a word, or none where its bits are those of no kind.
    fn of(word: u32) -> Option<WordKind>
        ensures { result ≡ word_kind word }
    {
        match field(word, 24, 3) {
            0 => Some(WordKind::Datum),
            2 => Some(WordKind::Header),
            4 => Some(WordKind::End),
            6 => Some(WordKind::Filler),
            _ => None,
        }
    }
}

/// The `width` bits of a word from bit `low` up.
fn field(word: u32, low: u32, width: u32) -> u32
    requires low_bound { low < 32 }
    requires width_bound { width < 32 }
    ensures { result ≡ bits word low width }
{
    word >> low & ((1 << width) - 1)
}

/// The bytes of a word, the high one first.
pub fn bytes_of(word: u32) -> [u8; 4]
    ensures { result ≡ word_bytes word }
{
    word.to_be_bytes()
}

// The makers of words answer an `Option`, and are no `TryFrom`: its error would say no more than none does.
impl Header {
    /// The header's word, or none where a part does not fit its bits.
    pub fn word(&self) -> Option<u32>
        ensures is { result ≡ make_header self.now }
        ensures again { Again read_first (First.Header self.now) result }
    {
        if self.geo < GEOS && self.readings < 64 {
            Some(
                (u32::from(self.geo) << 27)
                    + ((WordKind::Header as u32) << 24)
                    + (u32::from(self.crate_number) << 16)
                    + (u32::from(self.readings) << 8),
            )
        } else {
            None
        }
    }
}

/// The reading that the bits of a datum hold.
impl From<u32> for Reading {
    ghost from_gives = { λ w r. r ≡ reading_of w };

    fn from(word: u32) -> Reading {
        Reading {
            tag: field(word, 16, 5) as u8,
            under: field(word, 13, 1) == 1,
            over: field(word, 12, 1) == 1,
            count: field(word, 0, 12) as u16,
        }
    }
}

impl Datum {
    /// The datum's word, or none where a part does not fit its bits.
    pub fn word(&self) -> Option<u32>
        ensures is { result ≡ make_datum self.now }
        ensures again { Again read_datum self.now result }
    {
        let reading = self.reading;
        if self.geo < GEOS && reading.tag < 32 && reading.count < COUNTS {
            Some(
                (u32::from(self.geo) << 27)
                    + (u32::from(reading.tag) << 16)
                    + (u32::from(reading.under) << 13)
                    + (u32::from(reading.over) << 12)
                    + u32::from(reading.count),
            )
        } else {
            None
        }
    }

    /// Takes a word apart where a datum is due.
    pub fn read(word: u32, spot: Spot) -> Result<Datum, WordFault>
        ensures is { result ≡ read_datum word spot }
        ensures only { ReadsOnly DatumIs Due.Datum word spot result }
    {
        let Some(WordKind::Datum) = WordKind::of(word) else {
            return Err(Due::Datum.fault(WordCause::Kind, spot));
        };
        if field(word, 21, 3) != 0 || field(word, 14, 2) != 0 {
            return Err(Due::Datum.fault(WordCause::Bit, spot));
        }
        Ok(Datum {
            geo: field(word, 27, 5) as u8,
            reading: Reading::from(word),
        })
    }
}

impl End {
    /// The word that ends an event, or none where a part does not fit its bits.
    pub fn word(&self) -> Option<u32>
        ensures is { result ≡ make_end self.now }
        ensures again { Again read_end self.now result }
    {
        if self.geo < GEOS && self.number < NUMBERS {
            Some((u32::from(self.geo) << 27) + ((WordKind::End as u32) << 24) + self.number)
        } else {
            None
        }
    }

    /// Takes a word apart where an end is due.
    pub fn read(word: u32, spot: Spot) -> Result<End, WordFault>
        ensures is { result ≡ read_end word spot }
        ensures only { ReadsOnly EndIs Due.End word spot result }
    {
        let Some(WordKind::End) = WordKind::of(word) else {
            return Err(Due::End.fault(WordCause::Kind, spot));
        };
        Ok(End {
            geo: field(word, 27, 5) as u8,
            number: field(word, 0, 24),
        })
    }
}

impl First {
    /// Takes a word apart where a header or a filler is due. A filler's other bits are not looked at.
    pub fn read(word: u32, spot: Spot) -> Result<First, WordFault>
        ensures is { result ≡ read_first word spot }
        ensures only { ReadsOnly FirstIs Due.First word spot result }
    {
        match WordKind::of(word) {
            Some(WordKind::Filler) => Ok(First::Filler),
            Some(WordKind::Header) if field(word, 14, 2) == 0 && field(word, 0, 8) == 0 => {
                Ok(First::Header(Header {
                    geo: field(word, 27, 5) as u8,
                    crate_number: field(word, 16, 8) as u8,
                    readings: field(word, 8, 6) as u8,
                }))
            }
            Some(WordKind::Header) => Err(Due::First.fault(WordCause::Bit, spot)),
            _ => Err(Due::First.fault(WordCause::Kind, spot)),
        }
    }
}
