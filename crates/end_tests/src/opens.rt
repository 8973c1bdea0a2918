// Opens: which grids and banks they take, and what they leave in the bank.
use crate::cases::*;
use board::Bank;
use field::Field;
use fields::Mod65537;
use refusal::Refusal;
use std::process::Abort;

// Rows and columns, the cells of the bank, the answer, and how many cells are zero afterwards; all held 7.
type Case = (u64, u64, usize, Result<(), Refusal>, usize);

fn check_open<E: End>(rt: &impl Abort, memory: &mut [E::Cell], case: Case) {
    let (rows, columns, cells, answer, zeros) = case;
    assert!(rt; cells <= memory.len());
    let opened = E::open(rows, columns, &mut Bank::new(&mut memory[..cells]));
    assert_eq!(rt; opened.map(|_| ()), answer);
    for (i, cell) in memory.iter().enumerate() {
        assert_eq!(rt; E::held(*cell), if i < zeros { 0 } else { 7 });
    }
}

fn check_host_open(rt: &impl Abort, case: Case) {
    check_open::<host::Listening<Mod65537>>(rt, &mut [7; 520], case);
}

fn check_box_open(rt: &impl Abort, case: Case) {
    check_open::<verifier::Listening<Mod65537>>(rt, &mut [Mod65537::image(7); 1032], case);
}

#[test]
fn opens(rt: HostRuntime) {
    // A grid outside the limits is refused before the bank is looked at.
    let grids = [
        (0, 8),
        (65, 8),
        (u64::MAX, 8),
        (2, 0),
        (2, 12),
        (2, 1032),
        (2, u64::MAX - 7),
    ];
    for (rows, columns) in grids {
        for cells in [0, 520] {
            check_host_open(&rt, (rows, columns, cells, Err(Refusal::GridOutside), 0));
            check_box_open(&rt, (rows, columns, cells, Err(Refusal::GridOutside), 0));
        }
    }
    let host_cases = [
        (64, 8, 512, Ok(()), 512),
        (1, 8, 8, Ok(()), 8),
        (2, 8, 17, Ok(()), 16),
        (2, 8, 16, Ok(()), 16),
        (2, 8, 15, Err(Refusal::BankShort), 0),
        (2, 8, 0, Err(Refusal::BankShort), 0),
    ];
    for case in host_cases {
        check_host_open(&rt, case);
    }
    let box_cases = [
        (64, 8, 8, Ok(()), 8),
        (1, 1024, 1024, Ok(()), 1024),
        (1, 1024, 1023, Err(Refusal::BankShort), 0),
        (2, 8, 9, Ok(()), 8),
        (2, 8, 8, Ok(()), 8),
        (2, 8, 7, Err(Refusal::BankShort), 0),
        (2, 8, 0, Err(Refusal::BankShort), 0),
    ];
    for case in box_cases {
        check_box_open(&rt, case);
    }
}
