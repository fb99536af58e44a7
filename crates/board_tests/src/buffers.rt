//! The events that wait: how many, in which order, and the block that they are drawn into.

use crate::by_hand::*;
use crate::calls::*;
use bank::Bank;
use board::board::Board;
use front_ends::time::Time;
use reader_tests::pair::Pair;
use std::process::Abort;
use std::test::Fail;

/// A gate stores an event of the counts n and 4095 - n.
fn stores<B: Bank>(rt: &impl Abort, bank: &mut B, n: u16) {
    gates(rt, bank, 0, &[n % 4096, 4095 - n % 4096], Ok(Some(2)));
}

/// That event comes, with this number.
fn draws_numbered<B: Bank>(rt: &impl Abort, bank: &mut B, n: u16, number: u32) {
    draws_pair(rt, bank, [n % 4096, 4095 - n % 4096], number);
}

/// The refused gate is counted under ALL TRG, so that number 32 belongs to no event.
#[test]
fn the_33rd_event_does_not_fit(rt: HostRuntime) {
    let mut board = Board::new(Pair);
    for n in 0..32 {
        waits(&rt, &board, usize::from(n));
        stores(&rt, &mut board, n);
    }
    waits(&rt, &board, 32);
    gates(&rt, &mut board, 0, &[9, 9], Err(24));
    waits(&rt, &board, 32);
    draws_numbered(&rt, &mut board, 0, 0);
    waits(&rt, &board, 31);
    stores(&rt, &mut board, 33);
    waits(&rt, &board, 32);
    gates(&rt, &mut board, 0, &[9, 9], Err(24));
    for n in 1..32 {
        draws_numbered(&rt, &mut board, n, u32::from(n));
    }
    draws_numbered(&rt, &mut board, 33, 33);
    draws_nothing(&rt, &mut board);
}

/// A gate that keeps nothing does not fit either, though it would store nothing.
#[test]
fn a_full_buffer_takes_no_gate(rt: HostRuntime) {
    let mut board = Board::new(Pair);
    for n in 0..32 {
        stores(&rt, &mut board, n);
    }
    gates(&rt, &mut board, 0, &[0x1000; 2], Err(24));
    writes(&rt, &mut board, SKIP, 0);
    gates(&rt, &mut board, 0, &[0x1000; 2], Ok(None));
    waits(&rt, &board, 31);
    stores(&rt, &mut board, 50);
    gates(&rt, &mut board, 0, &[1, 1], Err(24));
}

/// So many events, each drawn when so many came after it.
fn goes_round<B: Bank, S: Fn(&mut B, u16), D: Fn(&mut B, u16)>(
    bank: &mut B,
    events: u16,
    behind: u16,
    stores: S,
    draws: D,
)
    requires stores { S.IsAlwaysCallable stores }
    requires draws { D.IsAlwaysCallable draws }
{
    for n in 0..200u16 {
        if n < events {
            stores(bank, n);
        }
        if n >= behind && n - behind < events {
            draws(bank, n - behind);
        }
    }
}

fn pairs_go_round<B: Bank>(rt: &impl Abort, bank: &mut B, behind: u16) {
    goes_round(
        bank,
        100,
        behind,
        |bank, n| stores(rt, bank, n),
        |bank, n| draws_numbered(rt, bank, n, u32::from(n)),
    );
    draws_nothing(rt, bank);
}

#[test]
fn the_buffer_goes_round(rt: HostRuntime) {
    for behind in [0, 1, 2, 30, 31] {
        let mut board = Board::new(Pair);
        pairs_go_round(&rt, &mut board, behind);
        writes(&rt, &mut board, COUNTER_RESET, 0);
        pairs_go_round(&rt, &mut board, behind);
    }
}

/// Under EMPTY every gate stores an event: here of both readings, of the first, of the second, or of none.
fn stores_some<B: Bank>(rt: &impl Abort, bank: &mut B, n: u16) {
    match n % 5 {
        1 => gates(rt, bank, 0, &[n, 0x1000], Ok(Some(1))),
        2 => gates(rt, bank, 0, &[0x1000, n], Ok(Some(1))),
        3 => gates(rt, bank, 0, &[0x1000, 0x1000], Ok(Some(0))),
        _ => gates(rt, bank, 0, &[n, n], Ok(Some(2))),
    }
}

fn draws_some<B: Bank>(rt: &impl Abort, bank: &mut B, n: u16) {
    let last = end(31, u32::from(n));
    match n % 5 {
        1 => draws(rt, bank, &[header(31, 0, 1), datum(31, 5, n), last]),
        2 => draws(rt, bank, &[header(31, 0, 1), datum(31, 9, n), last]),
        3 => draws(rt, bank, &[header(31, 0, 0), last]),
        _ => draws_pair(rt, bank, [n, n], u32::from(n)),
    }
}

/// Nothing comes of an event that waited in the same place before.
#[test]
fn places_are_used_again(rt: HostRuntime) {
    for behind in [0, 3, 31] {
        let mut board = Board::new(Pair);
        writes(&rt, &mut board, MODE, EMPTY);
        goes_round(
            &mut board,
            160,
            behind,
            |board, n| stores_some(&rt, board, n),
            |board, n| draws_some(&rt, board, n),
        );
        draws_nothing(&rt, &mut board);
    }
}

/// Gates that store nothing pass by the events that wait, also where the buffer has gone round and one place is left.
#[test]
fn no_gate_touches_what_waits(rt: HostRuntime) {
    let mut board = Board::new(Pair);
    writes(&rt, &mut board, MODE_CLEAR, ALL_TRG);
    for n in 0..20 {
        stores(&rt, &mut board, n);
        draws_numbered(&rt, &mut board, n, u32::from(n));
    }
    for n in 20..51 {
        stores(&rt, &mut board, n);
        gates(&rt, &mut board, 0, &[7, 0x2000], Err(3));
        gates(&rt, &mut board, 0, &[7], Err(2));
        gates(&rt, &mut board, 3, &[7, 7], Err(4));
        gates(&rt, &mut board, 1, &[7, 7], Err(21));
        gates(&rt, &mut board, 2, &[7, 7], Err(25));
    }
    gates(&rt, &mut board, 0, &[0x1007, 0x1007], Ok(None));
    waits(&rt, &board, 31);
    for n in 20..51 {
        draws_numbered(&rt, &mut board, n, u32::from(n));
    }
    draws_nothing(&rt, &mut board);
    counts(&rt, &board, 52);
}

/// A block is 34 words at least, and that is told before that nothing waits.
#[test]
fn blocks_without_an_event(rt: HostRuntime) {
    let mut board = Board::new(Time);
    draws_into(&rt, &mut board, &mut [], Err(8), &[]);
    draws_into(&rt, &mut board, &mut [0; 2], Err(8), &[]);
    draws_into(&rt, &mut board, &mut [0; 33], Err(8), &[]);
    draws_into(&rt, &mut board, &mut [0; 34], Err(26), &[]);
    draws_into(&rt, &mut board, &mut [0; 64], Err(26), &[]);
}

/// A block that is too short for the longest event is too short for any.
#[test]
fn blocks_for_an_event(rt: HostRuntime) {
    let mut board = Board::new(Pair);
    let words = [
        header(31, 0, 2),
        datum(31, 5, 10),
        datum(31, 9, 20),
        end(31, 0),
    ];
    gates(&rt, &mut board, 0, &[10, 20], Ok(Some(2)));
    draws_into(&rt, &mut board, &mut [], Err(8), &[]);
    draws_into(&rt, &mut board, &mut [0; 4], Err(8), &[]);
    draws_into(&rt, &mut board, &mut [0; 33], Err(8), &[]);
    waits(&rt, &board, 1);
    draws_into(&rt, &mut board, &mut [0; 34], Ok(4), &words);
    draws_nothing(&rt, &mut board);
}

#[test]
fn blocks_for_the_longest_event(rt: HostRuntime) -> Result<(), Fail> {
    let mut board = Board::new(Time);
    let mut words = vec![in rt.alloc(); header(31, 0, 32)]?;
    for tag in 0..32 {
        words.push(datum(31, tag, 4095))?;
    }
    words.push(end(31, 0))?;
    gates(&rt, &mut board, 0, &[4095; 32], Ok(Some(32)));
    draws_into(&rt, &mut board, &mut [0; 33], Err(8), &[]);
    draws_into(&rt, &mut board, &mut [0; 34], Ok(34), &words);
    writes(&rt, &mut board, COUNTER_RESET, 0);
    gates(&rt, &mut board, 0, &[4095; 32], Ok(Some(32)));
    draws_into(&rt, &mut board, &mut [0; 35], Ok(34), &words);
    draws_nothing(&rt, &mut board);
    Ok(())
}

/// Skips and draws take the events in one order.
#[test]
fn skips_and_draws(rt: HostRuntime) {
    let mut board = Board::new(Pair);
    refuses(&rt, &mut board, SKIP, 0, 26);
    refuses(&rt, &mut board, SKIP, 0xFFFF, 26);
    for n in 0..5 {
        stores(&rt, &mut board, n);
    }
    writes(&rt, &mut board, SKIP, 0);
    waits(&rt, &board, 4);
    draws_numbered(&rt, &mut board, 1, 1);
    writes(&rt, &mut board, SKIP, 1);
    writes(&rt, &mut board, SKIP, 0xFFFF);
    draws_numbered(&rt, &mut board, 4, 4);
    refuses(&rt, &mut board, SKIP, 0, 26);
    draws_nothing(&rt, &mut board);
    counts(&rt, &board, 5);
}

/// Bit 0: an event waits. Bit 2: 32 wait, or CLEAR DATA stands.
#[test]
fn the_status(rt: HostRuntime) {
    let mut board = Board::new(Pair);
    reads(&rt, &board, STATUS, Ok(0));
    for n in 0..31 {
        stores(&rt, &mut board, n);
        reads(&rt, &board, STATUS, Ok(1));
    }
    stores(&rt, &mut board, 31);
    reads(&rt, &board, STATUS, Ok(5));
    draws_numbered(&rt, &mut board, 0, 0);
    reads(&rt, &board, STATUS, Ok(1));
    writes(&rt, &mut board, MODE, OFFLINE);
    reads(&rt, &board, STATUS, Ok(1));
    writes(&rt, &mut board, MODE, CLEAR_DATA);
    reads(&rt, &board, STATUS, Ok(4));
    writes(&rt, &mut board, MODE_CLEAR, CLEAR_DATA);
    reads(&rt, &board, STATUS, Ok(0));
    writes(&rt, &mut board, MODE_CLEAR, OFFLINE);
    stores(&rt, &mut board, 0);
    writes(&rt, &mut board, SKIP, 0);
    reads(&rt, &board, STATUS, Ok(0));
}
