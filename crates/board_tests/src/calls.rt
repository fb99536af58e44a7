//! Calls at station 0, what each must answer, and all that can be seen of a board.

use crate::by_hand::{datum, end, header};
use answers::refusal::Refusal;
use bank::Bank;
use std::array;
use std::process::Abort;

pub(crate) const GEO: u16 = 0x1002;

pub(crate) const STATUS: u16 = 0x100E;

pub(crate) const SOFTWARE_RESET: u16 = 0x1016;

pub(crate) const COUNTER_LOW: u16 = 0x1024;

pub(crate) const COUNTER_HIGH: u16 = 0x1026;

pub(crate) const SKIP: u16 = 0x1028;

/// Read, the mode; written, it sets bits.
pub(crate) const MODE: u16 = 0x1032;

pub(crate) const MODE_CLEAR: u16 = 0x1034;

pub(crate) const CRATE: u16 = 0x103C;

pub(crate) const COUNTER_RESET: u16 = 0x1040;

/// The threshold of tag 0; each next tag's stands 2 further on.
pub(crate) const THRESHOLDS: u16 = 0x1080;

/// Mode bit 1.
pub(crate) const OFFLINE: u16 = 0x0002;

/// Mode bit 2.
pub(crate) const CLEAR_DATA: u16 = 0x0004;

/// Mode bit 3.
pub(crate) const OVER_RANGE: u16 = 0x0008;

/// Mode bit 4.
pub(crate) const LOW_THRESHOLD: u16 = 0x0010;

/// Mode bit 8.
pub(crate) const STEP: u16 = 0x0100;

/// Mode bit 12.
pub(crate) const EMPTY: u16 = 0x1000;

/// Mode bit 14.
pub(crate) const ALL_TRG: u16 = 0x4000;

/// Bit 8 of a threshold.
pub(crate) const KILL: u16 = 0x0100;

/// What stands in a block before anything is written.
pub(crate) const BLANK: u32 = 0xAAAA_AAAA;

/// The answer, a refusal by its number, so that the numbers are tested too.
fn told<T: Copy>(answer: Result<T, Refusal>) -> Result<T, u8> {
    answer.map_err(Refusal::number)
}

/// What a read at a station answers.
pub(crate) fn read_at<B: Bank>(bank: &B, station: usize, offset: u16) -> Result<u16, u8> {
    told(bank.read(station, offset))
}

/// What a write at a station answers.
pub(crate) fn write_at<B: Bank>(
    bank: &mut B,
    station: usize,
    offset: u16,
    value: u16,
) -> Result<(), u8> {
    told(bank.write(station, offset, value))
}

/// What a gate at a station answers: how many readings were kept, or none where it stored no event.
pub(crate) fn gate_at<B: Bank>(
    bank: &mut B,
    station: usize,
    signal: u8,
    readings: &[u16],
) -> Result<Option<u8>, u8> {
    told(bank.gate(station, signal, readings))
}

/// What a station answers to waiting.
pub(crate) fn waiting_at<B: Bank>(bank: &B, station: usize) -> Result<usize, u8> {
    told(bank.waiting(station))
}

/// What a draw at a station answers.
pub(crate) fn draw_at<B: Bank>(
    bank: &mut B,
    station: usize,
    block: &mut [u32],
) -> Result<usize, u8> {
    told(bank.draw(station, block))
}

/// The register shows the value, or the read is refused by a number.
pub(crate) fn reads<B: Bank>(rt: &impl Abort, bank: &B, offset: u16, expected: Result<u16, u8>) {
    assert_eq!(rt; read_at(bank, 0, offset), expected, "read {offset:#x}");
}

/// The write is accepted.
pub(crate) fn writes<B: Bank>(rt: &impl Abort, bank: &mut B, offset: u16, value: u16) {
    assert_eq!(rt;
        write_at(bank, 0, offset, value),
        Ok(()),
        "write {offset:#x} {value:#x}"
    );
}

/// The thresholds of all tags kill.
pub(crate) fn kills_all<B: Bank>(rt: &impl Abort, bank: &mut B) {
    for tag in 0..32 {
        writes(rt, bank, THRESHOLDS + 2 * tag, KILL);
    }
}

/// The write is refused by this number, and changes nothing that can be seen.
pub(crate) fn refuses<B: Bank>(rt: &impl Abort, bank: &mut B, offset: u16, value: u16, number: u8) {
    let before = Seen::of(bank);
    assert_eq!(rt;
        write_at(bank, 0, offset, value),
        Err(number),
        "write {offset:#x} {value:#x}"
    );
    assert_eq!(rt; Seen::of(bank), before, "write {offset:#x} {value:#x}");
}

/// The gate is accepted or refused so.
pub(crate) fn gates<B: Bank>(
    rt: &impl Abort,
    bank: &mut B,
    signal: u8,
    readings: &[u16],
    expected: Result<Option<u8>, u8>,
) {
    assert_eq!(rt;
        gate_at(bank, 0, signal, readings),
        expected,
        "signal {signal}, readings {readings:?}"
    );
}

/// So many events wait.
pub(crate) fn waits<B: Bank>(rt: &impl Abort, bank: &B, expected: usize) {
    assert_eq!(rt; waiting_at(bank, 0), Ok(expected));
}

/// The event counter, which two registers show.
pub(crate) fn counts<B: Bank>(rt: &impl Abort, bank: &B, expected: u32) {
    reads(rt, bank, COUNTER_LOW, Ok((expected % 65536) as u16));
    reads(rt, bank, COUNTER_HIGH, Ok((expected / 65536) as u16));
}

/// The draw answers so; the block, blank before, holds the words at its front and is blank behind them.
pub(crate) fn draws_into<B: Bank>(
    rt: &impl Abort,
    bank: &mut B,
    block: &mut [u32],
    expected: Result<usize, u8>,
    words: &[u32],
) {
    // Looked at here too: a private module of another crate's tests is not seen from this one.
    block.fill(BLANK);
    assert_eq!(rt; draw_at(bank, 0, block), expected);
    for (i, word) in block.iter().enumerate() {
        assert_eq!(rt; *word, words.get(i).copied().unwrap_or(BLANK), "word {i}");
    }
}

/// These are the words of the first event that waits, and it waits no more.
pub(crate) fn draws<B: Bank>(rt: &impl Abort, bank: &mut B, words: &[u32]) {
    draws_into(rt, bank, &mut [0; 34], Ok(words.len()), words);
}

/// The first event that waits is of GEO 31 and crate 0, with this number, and tags 5 and 9 have these counts.
pub(crate) fn draws_pair<B: Bank>(
    rt: &impl Abort,
    bank: &mut B,
    [first, second]: [u16; 2],
    number: u32,
) {
    draws(
        rt,
        bank,
        &[
            header(31, 0, 2),
            datum(31, 5, first),
            datum(31, 9, second),
            end(31, number),
        ],
    );
}

/// No event waits to be drawn.
pub(crate) fn draws_nothing<B: Bank>(rt: &impl Abort, bank: &mut B) {
    waits(rt, bank, 0);
    draws_into(rt, bank, &mut [0; 34], Err(26), &[]);
}

/// What waiting and every register that can be read answer.
#[derive(Clone, Copy, PartialEq, Debug)]
pub(crate) struct Seen {
    waiting: Result<usize, u8>,
    registers: [Result<u16, u8>; 6],
    thresholds: [Result<u16, u8>; 32],
}

impl Seen {
    pub(crate) fn of<B: Bank>(bank: &B) -> Seen {
        Seen {
            waiting: waiting_at(bank, 0),
            registers: [GEO, STATUS, COUNTER_LOW, COUNTER_HIGH, MODE, CRATE].map(|offset| read_at(
                bank, 0, offset,
            )),
            thresholds: array::from_fn(|tag| read_at(bank, 0, THRESHOLDS + 2 * tag as u16)),
        }
    }
}
