//! `pace COUNT [draw]`: so many gates put to a charge board, each event skipped or drawn, for a count of instructions.
#![tactic(auto)]

use answers::refusal::Refusal;
use anyhow::anyhow;
use bank::Bank;
use board::board::Board;
use front_ends::charge::Charge;
use std::env;
use words::word::LONGEST;

/// The register that strikes the first waiting event.
const SKIP: u16 = 0x1028;

/// One reading for each slot, every eighth overflowed.
const READINGS: [u16; 32] = [
    100, 200, 300, 400, 500, 600, 700, 0x1FFF, 100, 200, 300, 400, 500, 600, 700, 0x1FFF, 100, 200,
    300, 400, 500, 600, 700, 0x1FFF, 100, 200, 300, 400, 500, 600, 700, 0x1FFF,
];

/// Draws the event of the last gate, and answers the sum of its words, so that each of them has to be made.
fn draw<B: Bank>(bank: &mut B) -> Result<u64, Refusal> {
    let mut block = [0; LONGEST];
    bank.draw(0, &mut block)?;
    Ok(
        block
            .iter()
            .fold(0u64, |sum, word| sum.wrapping_add(u64::from(*word))),
    )
}

/// Puts a gate and takes its event, drawn or skipped; answers what was kept and drawn.
// The flag is the program's second argument, there or not.
fn pair<B: Bank>(bank: &mut B, drawn: bool) -> Result<u64, Refusal> {
    let kept = bank.gate(0, 0, &READINGS)?.map_or(0, u64::from);
    if drawn {
        return Ok(draw(bank)?.wrapping_add(kept));
    }
    bank.write(0, SKIP, 0)?;
    Ok(kept)
}

fn run(rt: &HostRuntime) -> anyhow::Result<()> {
    let mut args = env::args(rt)?.skip(1);
    let Some(count) = args.next() else {
        return Err(anyhow!("usage: pace COUNT [draw]"));
    };
    let count = count.as_str().parse::<u32>()?;
    let drawn = args.next().is_some();
    let mut board = Board::new(Charge);
    let mut sum = 0u64;
    for _ in 0..count {
        sum = sum.wrapping_add(pair(&mut board, drawn)?);
    }
    println!(rt; "{sum}")?;
    Ok(())
}

fn main(rt: HostRuntime) -> anyhow::Result<()> {
    run(&rt)
}
