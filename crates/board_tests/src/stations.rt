//! Stations past the first: a board is a bank of one.

use crate::calls::*;
use bank::Bank;
use board::board::Board;
use front_ends::charge::Charge;
use front_ends::time::Time;
use reader_tests::pair::Pair;
use std::process::Abort;

/// Every gate at the station is refused by number 1.
fn refuses_gates<B: Bank>(rt: &impl Abort, bank: &mut B, station: usize) {
    for signal in [0, 1, 2, 3, 255] {
        assert_eq!(rt;
            gate_at(bank, station, signal, &[100; 2]),
            Err(1),
            "station {station}"
        );
        assert_eq!(rt;
            gate_at(bank, station, signal, &[100; 32]),
            Err(1),
            "station {station}"
        );
        assert_eq!(rt;
            gate_at(bank, station, signal, &[0x2000; 33]),
            Err(1),
            "station {station}"
        );
        assert_eq!(rt;
            gate_at(bank, station, signal, &[]),
            Err(1),
            "station {station}"
        );
    }
}

/// Every call at the station is refused by number 1, whatever else is wrong with it, and changes nothing.
fn is_no_station<B: Bank>(rt: &impl Abort, bank: &mut B, station: usize) {
    let before = Seen::of(bank);
    assert_eq!(rt; waiting_at(bank, station), Err(1), "station {station}");
    for offset in [
        GEO,
        STATUS,
        SOFTWARE_RESET,
        COUNTER_LOW,
        COUNTER_HIGH,
        SKIP,
        MODE,
        MODE_CLEAR,
        CRATE,
        COUNTER_RESET,
        0x1080,
        0x108A,
        0x10BE,
        0x0000,
        0x1003,
        0xFFFF,
    ] {
        assert_eq!(rt; read_at(bank, station, offset), Err(1), "station {station}");
        for value in [0, 4, 7, 0xFFFF] {
            assert_eq!(rt;
                write_at(bank, station, offset, value),
                Err(1),
                "station {station}"
            );
        }
    }
    refuses_gates(rt, bank, station);
    assert_eq!(rt; Seen::of(bank), before, "station {station}");
}

/// A draw at the station is refused by number 1, and leaves the block.
fn draws_none<B: Bank>(rt: &impl Abort, bank: &mut B, station: usize) {
    let before = Seen::of(bank);
    let mut block = [BLANK; 34];
    assert_eq!(rt;
        draw_at(bank, station, &mut block),
        Err(1),
        "station {station}"
    );
    assert_eq!(rt;
        draw_at(bank, station, &mut block[0..33]),
        Err(1),
        "station {station}"
    );
    assert_eq!(rt;
        draw_at(bank, station, &mut []),
        Err(1),
        "station {station}"
    );
    assert_eq!(rt; block, [BLANK; 34], "station {station}");
    assert_eq!(rt; Seen::of(bank), before, "station {station}");
}

fn has_one_station<B: Bank>(rt: &impl Abort, bank: &mut B) {
    assert_eq!(rt; bank.stations(), 1);
    for station in [1, 2, 20, 21, 22, 256, usize::MAX] {
        is_no_station(rt, bank, station);
        draws_none(rt, bank, station);
    }
    assert_eq!(rt; bank.stations(), 1);
}

#[test]
fn boards_have_one_station(rt: HostRuntime) {
    has_one_station(&rt, &mut Board::new(Time));
    has_one_station(&rt, &mut Board::new(Charge));
    has_one_station(&rt, &mut Board::new(Pair));
}

#[test]
fn events_wait_at_one_station(rt: HostRuntime) {
    let mut board = Board::new(Pair);
    for _ in 0..2 {
        gates(&rt, &mut board, 0, &[200, 300], Ok(Some(2)));
    }
    has_one_station(&rt, &mut board);
    for number in [0, 1] {
        draws_pair(&rt, &mut board, [200, 300], number);
    }
    draws_nothing(&rt, &mut board);
}
