// The worked sheet, cut, changed and damaged.
use crate::tables::{CHANGES, CUTS, SHEET};
use board::Tag;
use field::Field;
use prime::Mod65537;
use refusal::{Fault, Refusal};
use sheet::{Terms, read_sheet};
use std::process::Abort;

const TERMS: Terms = Terms {
    rows: 2,
    columns: 8,
    tag: Tag {
        kind: 4,
        first: 0,
        second: 0,
    },
    least: 0,
    greatest: 65536,
    degree: 2,
};

// A sheet is refused so, and leaves zero in the first three elements of the tray alone.
fn check_refused(rt: &impl Abort, sheet: &[u8], fault: Fault, line: usize, place: usize) {
    let mut tray = [Mod65537::one(); 4];
    let refusal = Refusal::Sheet { fault, line, place };
    assert_eq!(rt; read_sheet(sheet, &TERMS, &mut tray), Err(refusal));
    assert_eq!(rt; refusal.number(), fault.number());
    assert_eq!(rt; refusal.position(), Some((line, place)));
    assert_eq!(rt; tray.map(Field::low), [0, 0, 0, 1]);
}

// A sheet reads as the worked one.
fn check_read(rt: &impl Abort, sheet: &[u8]) {
    let mut tray = [Mod65537::one(); 4];
    assert_eq!(rt; read_sheet(sheet, &TERMS, &mut tray), Ok(14));
    assert_eq!(rt; tray.map(Field::low), [9, 5, 17, 1]);
}

#[test]
fn cut_behind_every_byte(rt: HostRuntime) {
    for (n, &(fault, line, place)) in CUTS.iter().enumerate() {
        check_refused(&rt, &SHEET[..n], fault, line, place);
    }
}

#[test]
fn changed_at_every_byte(rt: HostRuntime) {
    for (n, &(fault, line, place)) in CHANGES.iter().enumerate() {
        let mut changed = *SHEET;
        changed[n] = b'x';
        check_refused(&rt, &changed, fault, line, place);
    }
}

#[test]
fn read_with_spaces_and_zeros(rt: HostRuntime) {
    check_read(&rt, SHEET);
    check_read(
        &rt,
        b"  (sheet 65537 1 (grid 2 8))\n(claim (4 0 0) 00014)\n(at 0 (9 0))\n(at 1 (5 0))\n(at 2 (17 0))\n(end)\n   ",
    );
    check_read(
        &rt,
        b"(sheet 65537 1 (grid 2 8))\n(claim (4 -0 0) 14)\n(at 0 (9 0))\n(at 1 (5 0))\n(at 2 (17 0))\n(end)\n",
    );
    check_read(
        &rt,
        b"(sheet 65537 1(grid 2 8))\n(claim(4 0 0) 14)\n(at 0(9 0))\n(at 1(5 0))\n(at 2(17 0))\n(end)\n",
    );
    check_read(
        &rt,
        b" ( sheet 65537 1  ( grid 2 8 )  )  \n ( claim  ( 4 0 0 )  14 )  \n ( at 0  ( 9 0 )  )  \n ( at 1  ( 5 0 )  )  \n ( at 2  ( 17 0 )  )  \n ( end )  \n",
    );
}

// Damaged sheets, and what is told of each.
const DAMAGED: [(&[u8], Fault, usize, usize); 22] = [
    // upper case
    (b"(Sheet 65537 1 (grid 2 8))\n", Fault::Malformed, 1, 1),
    // carriage return
    (
        b"(sheet 65537 1 (grid 2 8))\r\n(claim (4 0 0) 14)\r\n(at 0 (9 0))\r\n(at 1 (5 0))\r\n(at 2 (17 0))\r\n(end)\r\n",
        Fault::Malformed,
        1,
        26,
    ),
    // bytes from 128 on
    (b"\xc3\xa9", Fault::Malformed, 1, 0),
    // a minus alone
    (
        b"(sheet 65537 1 (grid 2 8))\n(claim (4 0 0) -)\n(at 0 (9 0))\n(at 1 (5 0))\n(at 2 (17 0))\n(end)\n",
        Fault::Malformed,
        2,
        42,
    ),
    // eleven digits
    (
        b"(sheet 65537 1 (grid 2 8))\n(claim (4 0 0) 00000000014)\n(at 0 (9 0))\n(at 1 (5 0))\n(at 2 (17 0))\n(end)\n",
        Fault::Malformed,
        2,
        42,
    ),
    // nine letters
    (b"(sheetsheet", Fault::Malformed, 1, 1),
    // a claim of 65551
    (
        b"(sheet 65537 1 (grid 2 8))\n(claim (4 0 0) 65551)\n(at 0 (9 0))\n(at 1 (5 0))\n(at 2 (17 0))\n(end)\n",
        Fault::Claim,
        2,
        42,
    ),
    // a negative claim
    (
        b"(sheet 65537 1 (grid 2 8))\n(claim (4 0 0) -14)\n(at 0 (9 0))\n(at 1 (5 0))\n(at 2 (17 0))\n(end)\n",
        Fault::Claim,
        2,
        42,
    ),
    // another p
    (
        b"(sheet 65539 1 (grid 2 8))\n(claim (4 0 0) 14)\n(at 0 (9 0))\n(at 1 (5 0))\n(at 2 (17 0))\n(end)\n",
        Fault::Field,
        1,
        7,
    ),
    // another e
    (
        b"(sheet 65537 2 (grid 2 8))\n(claim (4 0 0) 14)\n(at 0 (9 0))\n(at 1 (5 0))\n(at 2 (17 0))\n(end)\n",
        Fault::Field,
        1,
        13,
    ),
    // another grid
    (
        b"(sheet 65537 1 (grid 2 16))\n(claim (4 0 0) 14)\n(at 0 (9 0))\n(at 1 (5 0))\n(at 2 (17 0))\n(end)\n",
        Fault::Grid,
        1,
        23,
    ),
    // another tag
    (
        b"(sheet 65537 1 (grid 2 8))\n(claim (4 0 1) 14)\n(at 0 (9 0))\n(at 1 (5 0))\n(at 2 (17 0))\n(end)\n",
        Fault::Tag,
        2,
        39,
    ),
    // a line twice
    (
        b"(sheet 65537 1 (grid 2 8))\n(claim (4 0 0) 14)\n(at 0 (9 0))\n(at 0 (9 0))\n(at 2 (17 0))\n(end)\n",
        Fault::Index,
        4,
        63,
    ),
    // a surplus line
    (
        b"(sheet 65537 1 (grid 2 8))\n(claim (4 0 0) 14)\n(at 0 (9 0))\n(at 1 (5 0))\n(at 2 (17 0))\n(at 3 (0 0))\n(end)\n",
        Fault::Unexpected,
        6,
        87,
    ),
    // a part that is p
    (
        b"(sheet 65537 1 (grid 2 8))\n(claim (4 0 0) 14)\n(at 0 (65537 0))\n(at 1 (5 0))\n(at 2 (17 0))\n(end)\n",
        Fault::Part,
        3,
        53,
    ),
    // a high part
    (
        b"(sheet 65537 1 (grid 2 8))\n(claim (4 0 0) 14)\n(at 0 (9 1))\n(at 1 (5 0))\n(at 2 (17 0))\n(end)\n",
        Fault::Part,
        3,
        55,
    ),
    // a negative part
    (
        b"(sheet 65537 1 (grid 2 8))\n(claim (4 0 0) 14)\n(at 0 (-9 0))\n(at 1 (5 0))\n(at 2 (17 0))\n(end)\n",
        Fault::Part,
        3,
        53,
    ),
    // no last line end
    (
        b"(sheet 65537 1 (grid 2 8))\n(claim (4 0 0) 14)\n(at 0 (9 0))\n(at 1 (5 0))\n(at 2 (17 0))\n(end)",
        Fault::Unexpected,
        6,
        91,
    ),
    // text after the end
    (
        b"(sheet 65537 1 (grid 2 8))\n(claim (4 0 0) 14)\n(at 0 (9 0))\n(at 1 (5 0))\n(at 2 (17 0))\n(end)\nx",
        Fault::Unexpected,
        7,
        92,
    ),
    // a line after the end
    (
        b"(sheet 65537 1 (grid 2 8))\n(claim (4 0 0) 14)\n(at 0 (9 0))\n(at 1 (5 0))\n(at 2 (17 0))\n(end)\n\n",
        Fault::Unexpected,
        7,
        92,
    ),
    // two forms on a line
    (
        b"(sheet 65537 1 (grid 2 8)) (claim (4 0 0) 14)\n(at 0 (9 0))\n(at 1 (5 0))\n(at 2 (17 0))\n(end)\n",
        Fault::Unexpected,
        1,
        27,
    ),
    // a blank line
    (
        b"(sheet 65537 1 (grid 2 8))\n\n(claim (4 0 0) 14)\n(at 0 (9 0))\n(at 1 (5 0))\n(at 2 (17 0))\n(end)\n",
        Fault::Unexpected,
        2,
        27,
    ),
];

#[test]
fn damaged(rt: HostRuntime) {
    for &(sheet, fault, line, place) in DAMAGED.iter() {
        check_refused(&rt, sheet, fault, line, place);
    }
}
