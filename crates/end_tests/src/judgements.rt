// Sheets for the squares on a worked board, whose true count is 14, judged at several points.
use crate::cases::MOVES;
use board::Bank;
use field::Field;
use fields::{Mersenne31, Mod65537, Mod65537x2};
use refusal::{Fault, Refusal};
use season::Squares;
use std::process::Abort;
use std::test::Fail;

const TRUE_SHEET: &[u8] =
    b"(sheet 65537 1 (grid 2 8))\n(claim (4 0 0) 14)\n(at 0 (9 0))\n(at 1 (5 0))\n(at 2 (17 0))\n(end)\n";

const FALSE_SHEET: &[u8] =
    b"(sheet 65537 1 (grid 2 8))\n(claim (4 0 0) 13)\n(at 0 (9 0))\n(at 1 (4 0))\n(at 2 (17 0))\n(end)\n";

const WRONG_SUM: &[u8] =
    b"(sheet 65537 1 (grid 2 8))\n(claim (4 0 0) 13)\n(at 0 (9 0))\n(at 1 (5 0))\n(at 2 (17 0))\n(end)\n";

const LARGE_CLAIM: &[u8] =
    b"(sheet 65537 1 (grid 2 8))\n(claim (4 0 0) 65551)\n(at 0 (9 0))\n(at 1 (5 0))\n(at 2 (17 0))\n(end)\n";

const MERSENNE_TRUE: &[u8] =
    b"(sheet 2147483647 1 (grid 2 8))\n(claim (4 0 0) 14)\n(at 0 (9 0))\n(at 1 (5 0))\n(at 2 (17 0))\n(end)\n";

const MERSENNE_FALSE: &[u8] =
    b"(sheet 2147483647 1 (grid 2 8))\n(claim (4 0 0) 13)\n(at 0 (9 0))\n(at 1 (4 0))\n(at 2 (17 0))\n(end)\n";

const EXTENSION_TRUE: &[u8] =
    b"(sheet 65537 2 (grid 2 8))\n(claim (4 0 0) 14)\n(at 0 (9 0))\n(at 1 (5 0))\n(at 2 (17 0))\n(end)\n";

const EXTENSION_FALSE: &[u8] =
    b"(sheet 65537 2 (grid 2 8))\n(claim (4 0 0) 13)\n(at 0 (9 0))\n(at 1 (4 0))\n(at 2 (17 0))\n(end)\n";

const ONE_ROW_TRUE: &[u8] = b"(sheet 65537 1 (grid 1 8))\n(claim (4 0 0) 9)\n(at 0 (9 0))\n(end)\n";

const ONE_ROW_FALSE: &[u8] =
    b"(sheet 65537 1 (grid 1 8))\n(claim (4 0 0) 8)\n(at 0 (8 0))\n(end)\n";

// A box's point, a sheet, and what the box finds: the claim or a refusal.
type Case<F> = (F, &'static [u8], Result<i64, Refusal>);

// A new box with its memory all zero, told the moves on the first rows, judges the sheet twice and finds the same.
fn check_judged<F: Field>(
    rt: &impl Abort,
    rows: u64,
    sums: &mut [F],
    tray: &mut [F],
    case: &Case<F>,
) -> Result<(), Fail> {
    let &(point, sheet, found) = case;
    let mut sums = Bank::new(sums);
    sums.fill(F::zero());
    Bank::new(tray).fill(F::zero());
    let mut verifier = verifier::Listening::open(rows, 8, point, &mut sums)?;
    for m in MOVES {
        let _ = verifier.note(&mut sums, m);
    }
    let verifier = verifier.seal();
    for _ in 0..2 {
        assert_eq!(rt; verifier.judge(&sums, &Squares, sheet, tray), found);
    }
    Ok(())
}

fn check_cases<F: Field>(
    rt: &impl Abort,
    rows: u64,
    sums: &mut [F],
    tray: &mut [F],
    cases: &[Case<F>],
) -> Result<(), Fail> {
    for case in cases {
        check_judged(rt, rows, sums, tray, case)?;
    }
    Ok(())
}

// With a bank one cell longer than needed and a tray just long enough.
#[test]
fn worked_sheets_modulo_65537(rt: HostRuntime) -> Result<(), Fail> {
    let large_claim = Refusal::Sheet {
        fault: Fault::Claim,
        line: 2,
        place: 42,
    };
    check_cases(
        &rt,
        2,
        &mut [Mod65537::zero(); 9],
        &mut [Mod65537::zero(); 3],
        &[
            (Mod65537::image(0), TRUE_SHEET, Ok(14)),
            (Mod65537::image(5), TRUE_SHEET, Ok(14)),
            (Mod65537::image(300), TRUE_SHEET, Ok(14)),
            (Mod65537::image(0), FALSE_SHEET, Ok(13)),
            (Mod65537::image(2), FALSE_SHEET, Ok(13)),
            (Mod65537::image(1), FALSE_SHEET, Err(Refusal::PointWrong)),
            (Mod65537::image(5), FALSE_SHEET, Err(Refusal::PointWrong)),
            (Mod65537::image(300), FALSE_SHEET, Err(Refusal::PointWrong)),
            (Mod65537::image(0), WRONG_SUM, Err(Refusal::SumWrong)),
            (Mod65537::image(5), LARGE_CLAIM, Err(large_claim)),
        ],
    )
}

#[test]
fn worked_sheets_over_other_fields(rt: HostRuntime) -> Result<(), Fail> {
    check_cases(
        &rt,
        2,
        &mut [Mersenne31::zero(); 8],
        &mut [Mersenne31::zero(); 3],
        &[
            (Mersenne31::image(5), MERSENNE_TRUE, Ok(14)),
            (Mersenne31::image(2), MERSENNE_FALSE, Ok(13)),
            (
                Mersenne31::image(5),
                MERSENNE_FALSE,
                Err(Refusal::PointWrong),
            ),
        ],
    )?;
    let t: Mod65537x2 = Field::of_parts(0, 1);
    check_cases(
        &rt,
        2,
        &mut [Field::zero(); 8],
        &mut [Field::zero(); 3],
        &[
            (t, EXTENSION_TRUE, Ok(14)),
            (t, EXTENSION_FALSE, Err(Refusal::PointWrong)),
            (Field::zero(), EXTENSION_FALSE, Ok(13)),
        ],
    )
}

#[test]
fn one_row_and_short_trays(rt: HostRuntime) -> Result<(), Fail> {
    let zero = Mod65537::zero();
    let five = Mod65537::image(5);
    check_cases(
        &rt,
        1,
        &mut [zero; 8],
        &mut [zero; 1],
        &[
            (five, ONE_ROW_TRUE, Ok(9)),
            (zero, ONE_ROW_FALSE, Err(Refusal::PointWrong)),
            (five, ONE_ROW_FALSE, Err(Refusal::PointWrong)),
        ],
    )?;
    check_cases(
        &rt,
        2,
        &mut [zero; 8],
        &mut [zero; 2],
        &[(five, TRUE_SHEET, Err(Refusal::TrayShort))],
    )?;
    let empty = Refusal::Sheet {
        fault: Fault::Unexpected,
        line: 1,
        place: 0,
    };
    check_cases(
        &rt,
        2,
        &mut [zero; 8],
        &mut [zero; 3],
        &[(five, b"", Err(empty))],
    )
}
