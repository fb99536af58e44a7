//! What is printed of each answer.

use answers::refusal::Refusal;
use script::mistake::Mistake;
use script_text::reply::{Answer, Drawn, MOST_WORDS, Reply};
use std::process::Abort;
use std::test::Fail;

fn check_told(
    rt: &(impl Abort + AllocGlobal),
    line: u64,
    told: Result<Answer, Mistake>,
    text: &str,
) -> Result<(), Fail> {
    let reply = Reply { line, told };
    let printed = format!(in rt.alloc(); "{reply}")?;
    assert_eq!(rt; printed.as_str(), text);
    Ok(())
}

fn check_reply(
    rt: &(impl Abort + AllocGlobal),
    line: u64,
    answer: Answer,
    text: &str,
) -> Result<(), Fail> {
    check_told(rt, line, Ok(answer), text)
}

#[test]
fn gates(rt: HostRuntime) -> Result<(), Fail> {
    check_reply(&rt, 3, Answer::Gate(Ok(Some(5))), "3: gate: stored, 5 kept")?;
    check_reply(
        &rt,
        4,
        Answer::Gate(Ok(None)),
        "4: gate: not stored, 0 kept",
    )?;
    check_reply(
        &rt,
        9,
        Answer::Gate(Err(Refusal::Veto)),
        "9: gate: refused 21: veto",
    )
}

#[test]
fn writes(rt: HostRuntime) -> Result<(), Fail> {
    let done = Answer::Write {
        offset: 0x1032,
        result: Ok(()),
    };
    let refused = Answer::Write {
        offset: 0x1002,
        result: Err(Refusal::Value),
    };
    check_reply(&rt, 5, done, "5: write 0x1032: done")?;
    check_reply(
        &rt,
        11,
        refused,
        "11: write 0x1002: refused 6: the value exceeds its limit or names a mode bit that the board lacks",
    )
}

#[test]
fn reads(rt: HostRuntime) -> Result<(), Fail> {
    for (offset, value, text) in [
        (0x1032, 0x4880, "6: read 0x1032: 0x4880"),
        (0, 0, "6: read 0x0000: 0x0000"),
        (0xFFFF, 0xABCD, "6: read 0xFFFF: 0xABCD"),
        (9, 10, "6: read 0x0009: 0x000A"),
        (0x0F10, 0x00EF, "6: read 0x0F10: 0x00EF"),
    ] {
        let result = Ok(value);
        check_reply(&rt, 6, Answer::Read { offset, result }, text)?;
    }
    let refused = Answer::Read {
        offset: 0x1001,
        result: Err(Refusal::NoRegister),
    };
    check_reply(
        &rt,
        6,
        refused,
        "6: read 0x1001: refused 5: no such register for this access",
    )
}

#[test]
fn waits(rt: HostRuntime) -> Result<(), Fail> {
    check_reply(&rt, 7, Answer::Waiting(Ok(1)), "7: waiting: 1")?;
    check_reply(&rt, 10, Answer::Waiting(Ok(32)), "10: waiting: 32")?;
    check_reply(
        &rt,
        18_446_744_073_709_551_615,
        Answer::Waiting(Err(Refusal::NoStation)),
        "18446744073709551615: waiting: refused 1: no such station",
    )
}

fn drawn(words: &[u32]) -> Drawn {
    let count = words.len().min(MOST_WORDS);
    let mut block = [0; MOST_WORDS];
    block[0..count].copy_from_slice(&words[0..count]);
    Drawn { block, count }
}

#[test]
fn draws(rt: HostRuntime) -> Result<(), Fail> {
    let event = drawn(&[0x1A05_0200, 0x1804_0064, 0x1805_0320, 0x1C00_0007]);
    check_reply(
        &rt,
        8,
        Answer::Draw(Ok(event)),
        "8: draw: 4 words: 0x1A050200 0x18040064 0x18050320 0x1C000007",
    )?;
    let none = drawn(&[]);
    check_reply(&rt, 8, Answer::Draw(Ok(none)), "8: draw: 0 words:")?;
    let two = drawn(&[0, 0xFEDC_BA98]);
    check_reply(
        &rt,
        8,
        Answer::Draw(Ok(two)),
        "8: draw: 2 words: 0x00000000 0xFEDCBA98",
    )?;
    check_reply(
        &rt,
        8,
        Answer::Draw(Err(Refusal::NothingWaits)),
        "8: draw: refused 26: no event waits",
    )
}

#[test]
fn refusals(rt: HostRuntime) -> Result<(), Fail> {
    for (refusal, text) in [
        (Refusal::NoStation, "1: gate: refused 1: no such station"),
        (
            Refusal::ReadingCount,
            "1: gate: refused 2: not one reading for each slot",
        ),
        (
            Refusal::ReadingBits,
            "1: gate: refused 3: a reading exceeds 8191",
        ),
        (
            Refusal::UnknownSignal,
            "1: gate: refused 4: the signal is not 0, 1 or 2",
        ),
        (
            Refusal::NoRegister,
            "1: gate: refused 5: no such register for this access",
        ),
        (
            Refusal::BlockShort,
            "1: gate: refused 8: the block is under 34 words",
        ),
        (Refusal::Veto, "1: gate: refused 21: veto"),
        (
            Refusal::ClearData,
            "1: gate: refused 22: mode bit CLEAR DATA stands",
        ),
        (
            Refusal::Offline,
            "1: gate: refused 23: mode bit OFFLINE stands",
        ),
        (Refusal::Full, "1: gate: refused 24: 32 events wait"),
        (Refusal::FastClear, "1: gate: refused 25: fast clear"),
        (Refusal::NothingWaits, "1: gate: refused 26: no event waits"),
    ] {
        check_reply(&rt, 1, Answer::Gate(Err(refusal)), text)?;
    }
    Ok(())
}

#[test]
fn mistakes(rt: HostRuntime) -> Result<(), Fail> {
    for (mistake, text) in [
        (
            Mistake::NoBoard,
            "2: not understood: the board is not named yet; expected board time or board charge first",
        ),
        (
            Mistake::SecondBoard,
            "2: not understood: the board is named already; expected one board in a script",
        ),
    ] {
        check_told(&rt, 2, Err(mistake), text)?;
    }
    Ok(())
}
