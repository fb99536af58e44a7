//! What a line says, as text that can be compared: numbers are decimal, and a mistake is told as a program tells it.

use front_ends::kind::Kind;
use script::call::{Call, Line};
use script::parse::parse;
use script_text::reply::Reply;
use std::alloc::{AllocError, Global};
use std::process::Abort;
use std::test::Fail;

pub(crate) const SURPLUS: &str =
    "1: not understood: a part is left over; expected the line's end before it";

pub(crate) const UNKNOWN: &str =
    "1: not understood: the call is unknown; expected board, gate, write, read, waiting or draw";

pub(crate) const NO_OFFSET: &str =
    "1: not understood: the offset is missing; expected a number up to 65535";

pub(crate) const OFFSET_RANGE: &str =
    "1: not understood: the offset is out of range; expected a number up to 65535";

pub(crate) const OFFSET_NUMBER: &str =
    "1: not understood: the offset is not a number, decimal or after 0x; expected a number up to 65535";

pub(crate) const READING_RANGE: &str =
    "1: not understood: a reading is out of range; expected a number up to 65535";

fn said_by_call(heap: Global, call: &Call) -> Result<String, AllocError> {
    match call {
        Call::Gate { signal, readings } => {
            let mut text = format!(in heap; "gate {signal}:")?;
            for reading in readings.as_slice() {
                write!(text, " {reading}")?;
            }
            Ok(text)
        }
        Call::Write { offset, value } => format!(in heap; "write {offset} {value}"),
        Call::Read { offset } => format!(in heap; "read {offset}"),
        Call::Waiting => String::from_str(heap, "waiting"),
        Call::Draw { words } => format!(in heap; "draw {words}"),
    }
}

fn said(heap: Global, line: &[u8]) -> Result<String, AllocError> {
    match parse(line) {
        Ok(Line::Blank) => String::from_str(heap, "blank"),
        Ok(Line::Board(Kind::Time)) => String::from_str(heap, "board time"),
        Ok(Line::Board(Kind::Charge)) => String::from_str(heap, "board charge"),
        Ok(Line::Call(call)) => said_by_call(heap, &call),
        Err(mistake) => {
            let reply = Reply {
                line: 1,
                told: Err(mistake),
            };
            format!(in heap; "{reply}")
        }
    }
}

/// Each line says what stands beside it.
pub(crate) fn check_lines(
    rt: &(impl Abort + AllocGlobal),
    rows: &[(&str, &str)],
) -> Result<(), Fail> {
    for (line, text) in rows {
        let told = said(rt.alloc(), line.as_bytes())?;
        assert_eq!(rt; told.as_str(), *text, "{line}");
    }
    Ok(())
}

/// What bytes say that are no text.
pub(crate) fn check_bytes(
    rt: &(impl Abort + AllocGlobal),
    line: &[u8],
    text: &str,
) -> Result<(), Fail> {
    let told = said(rt.alloc(), line)?;
    assert_eq!(rt; told.as_str(), text);
    Ok(())
}
