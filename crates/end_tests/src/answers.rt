// This season's questions on a worked board, answered by a host.
use crate::cases::MOVES;
use board::Bank;
use field::Field;
use fields::{Mod65537, Mod65537x2};
use question::Question;
use refusal::Refusal;
use season::{Cell, Goods, Range, Season, Squares};
use std::process::Abort;
use std::test::Fail;

// A host told the moves claims this, or refuses so, with a tray and a paper of these lengths.
fn check_room(
    rt: &impl Abort,
    question: &impl Question<Mod65537>,
    tray: &mut [Mod65537],
    paper: &mut [u8],
    claim: Result<i64, Refusal>,
) -> Result<(), Fail> {
    let mut counts = [9i32; 17];
    let mut counts = Bank::new(&mut counts);
    let mut host = host::Listening::<Mod65537>::open(2, 8, &mut counts)?;
    for m in MOVES {
        let _ = host.note(&mut counts, m);
    }
    let found = host.seal().answer(&counts, question, tray, paper);
    assert_eq!(rt; found.map(|(claim, _)| claim), claim);
    Ok(())
}

// With buffers long enough.
fn check_claim(
    rt: &impl Abort,
    question: &impl Question<Mod65537>,
    claim: Result<i64, Refusal>,
) -> Result<(), Fail> {
    check_room(
        rt,
        question,
        &mut [Field::zero(); 11],
        &mut [0; 9216],
        claim,
    )
}

#[test]
fn true_counts(rt: HostRuntime) -> Result<(), Fail> {
    check_claim(&rt, &Squares, Ok(14))?;
    check_claim(&rt, &Range { first: 8, last: 9 }, Ok(-1))?;
    check_claim(&rt, &Range { first: 0, last: 15 }, Ok(2))?;
    check_claim(
        &rt,
        &Range { first: 9, last: 8 },
        Err(Refusal::QuestionUnfit),
    )?;
    check_claim(
        &rt,
        &Range { first: 9, last: 16 },
        Err(Refusal::QuestionUnfit),
    )?;
    check_claim(&rt, &Cell { index: 9 }, Ok(-2))?;
    check_claim(&rt, &Cell { index: 16 }, Err(Refusal::QuestionUnfit))?;
    check_claim(&rt, &Goods { kind: 0 }, Ok(4))?;
    check_claim(&rt, &Goods { kind: 1 }, Ok(-2))?;
    check_claim(&rt, &Goods { kind: 7 }, Ok(0))?;
    check_claim(&rt, &Goods { kind: 8 }, Err(Refusal::QuestionUnfit))?;
    check_claim(&rt, &Season::Cell(Cell { index: 0 }), Ok(3))
}

#[test]
fn buffers_just_long_enough(rt: HostRuntime) -> Result<(), Fail> {
    let zero = Mod65537::zero();
    check_room(&rt, &Squares, &mut [zero; 11], &mut [0; 9216], Ok(14))?;
    check_room(
        &rt,
        &Squares,
        &mut [zero; 10],
        &mut [0; 9216],
        Err(Refusal::TrayShort),
    )?;
    check_room(
        &rt,
        &Squares,
        &mut [zero; 11],
        &mut [0; 9215],
        Err(Refusal::PaperShort),
    )
}

// In the extension of 65,537 at t, the columns of the board are 3 − 2 t and −2 t.
#[test]
fn squares_rule_at_t(rt: HostRuntime) -> Result<(), Fail> {
    let t: Mod65537x2 = Field::of_parts(0, 1);
    let mut sums = [Field::zero(); 8];
    let mut sums = Bank::new(&mut sums);
    let mut verifier = verifier::Listening::open(2, 8, t, &mut sums)?;
    for m in MOVES {
        let _ = verifier.note(&mut sums, m);
    }
    let grid = verifier.book().grid();
    let cells = sums.cells();
    assert!(rt; cells.len() == grid.columns as usize);
    let value = Squares.rule(grid, t, cells);
    assert_eq!(rt; (value.low(), value.high()), (33, 65525));
    Ok(())
}
