// The worked board: two rows, eight columns, the moves (0, 3), (8, 1), (9, −2), and what is known to come of them.
use crate::backward::{BACKWARD, BACKWARD_ASK};
use crate::sealing::seal;
use field::Field;
use inquiry::{Given, Inquiry, Room, Sealed};
use pairs::Listening;
use reference::{Arithmetic, Ask, Element, Fault, Move, Position, Refusal, Sheet, Stop};
use report::{Outcome, Refused, Table};
use season::{Range, Squares};
use std::alloc::AllocError;

// What a host's tray and paper need.
const ROOM: Room = Room {
    tray: 11,
    paper: 9216,
};

const MOVES: [Move; 3] = [
    Move { cell: 0, amount: 3 },
    Move { cell: 8, amount: 1 },
    Move {
        cell: 9,
        amount: -2,
    },
];

// The honest values of the squares.
const SQUARES: [i64; 3] = [9, 5, 17];

// The sheet of the squares over the residues modulo 65,537.
const SQUARES_SHEET: &[u8] =
    b"(sheet 65537 1 (grid 2 8))\n(claim (4 0 0) 14)\n(at 0 (9 0))\n(at 1 (5 0))\n(at 2 (17 0))\n(end)\n";

// Whole numbers as elements, −1 as p − 1.
fn images(field: Arithmetic, values: [i64; 3]) -> [Element; 3] {
    values.map(|n| field.image(n))
}

// Holds an answer to the claim and the three values that are known.
fn holds_values(table: &mut Table, given: &Outcome<Given>, claim: i64, values: [i64; 3]) {
    let known = images(table.source.field, values);
    let claims = given.as_ref().is_ok_and(|given| given.claim == claim);
    let has_values = given
        .as_ref()
        .is_ok_and(|given| given.tray.as_slice().starts_with(&known));
    table.report.holds("worked: the claim", claims);
    table.report.holds("worked: the values", has_values);
}

// Judges a claim with three values under squares, and holds the outcome to what is known.
fn holds_judgement<F: Field>(
    table: &mut Table,
    sealed: &mut Sealed<F>,
    claim: i64,
    values: [i64; 3],
    known: Result<(), u64>,
) -> Result<(), AllocError> {
    let values = images(table.source.field, values);
    let game = table.source.game(sealed.verifier.at);
    let text = game.write_sheet(Ask::Squares.tag(), claim, &values)?;
    let mut inquiry = Inquiry::new(table, sealed, &Squares, Ask::Squares);
    let found = inquiry.compare_judgement(text.as_bytes(), 4)?;
    table.report.number("worked: a judgement", &found, known);
    Ok(())
}

// Squares and ranges asked of the host.
fn ask_host<F: Field>(table: &mut Table, sealed: &mut Sealed<F>) -> Result<(), AllocError> {
    let given = Inquiry::new(table, sealed, &Squares, Ask::Squares).compare_answer(ROOM)?;
    holds_values(table, &given, 14, SQUARES);
    if table.source.field == Arithmetic::MOD_65537 {
        let known = given
            .as_ref()
            .is_ok_and(|given| given.sheet.as_slice() == SQUARES_SHEET);
        table.report.holds("worked: the sheet", known);
    }
    let range = Range { first: 8, last: 9 };
    let given = Inquiry::new(table, sealed, &range, Ask::Range(8, 9)).compare_answer(ROOM)?;
    holds_values(table, &given, -1, [0, -1, -10]);
    let given = Inquiry::new(table, sealed, &BACKWARD, BACKWARD_ASK).compare_answer(ROOM)?;
    table.report.number(
        "worked: a range that runs backward",
        &given,
        Err(Refusal::QuestionUnfit.number()),
    );
    Ok(())
}

// Sheets put before the box. The claim 13 with 9, 4, 17 is false and passes at the points 0 and 2 alone.
fn ask_verifier<F: Field>(table: &mut Table, sealed: &mut Sealed<F>) -> Result<(), AllocError> {
    let passes = matches!(
        sealed.verifier.point,
        Element {
            low: 0 | 2,
            high: 0
        }
    );
    let at_point = if passes {
        Ok(())
    } else {
        Err(Refusal::PointWrong.number())
    };
    let sum_wrong = Err(Refusal::SumWrong.number());
    let claim_wrong = Err(Fault::Claim.number());
    let beyond = i64::try_from(table.source.field.p)
        .unwrap_or(0)
        .wrapping_add(14);
    for (claim, values, known) in [
        (14, SQUARES, Ok(())),
        (13, [9, 4, 17], at_point),
        (13, SQUARES, sum_wrong),
        (beyond, SQUARES, claim_wrong),
    ] {
        holds_judgement(table, sealed, claim, values, known)?;
    }
    let found = Inquiry::new(table, sealed, &Squares, Ask::Squares).compare_judgement(b"", 4)?;
    let known = Refused::from(Refusal::Sheet(Fault::Unexpected, Position::START));
    table
        .report
        .holds("worked: an empty sheet", found == Err(known));
    let found = Inquiry::new(table, sealed, &BACKWARD, BACKWARD_ASK).compare_judgement(b"", 4)?;
    table.report.number(
        "worked: a range that runs backward, judged",
        &found,
        Err(Refusal::QuestionUnfit.number()),
    );
    Ok(())
}

// The bank at the point 5 modulo 65,537, and the squares rule at t where there is a t.
fn holds_bank<F: Field>(table: &mut Table, sealed: &Sealed<F>) -> Result<(), AllocError> {
    let Table { source, report } = table;
    let bank = sealed.verifier.plain.as_slice();
    let game = source.game(sealed.verifier.at);
    let rule = game.rule(Ask::Squares, sealed.verifier.point, bank)?;
    if source.field.p != 65_537 {
        return Ok(());
    }
    match (sealed.verifier.point, bank) {
        (Element { low: 5, high: 0 }, [first, second, rest @ ..]) => {
            let known = [*first, *second] == [Element::whole(65_530), Element::whole(65_527)];
            report.holds("worked: the bank at 5", known);
            for sum in rest {
                report.same("worked: the rest of the bank", sum.low, 0);
            }
        }
        (Element { low: 0, high: 1 }, _) => {
            report.same("worked: squares at t", rule.low, 33);
            report.same("worked: squares at t", rule.high, 65_525);
        }
        _ => {}
    }
    Ok(())
}

/// Plays the worked board at one point.
pub fn play_worked<F: Field>(table: &mut Table, point: Element) -> Result<(), Stop> {
    table.report.next_game();
    let counts = table.source.any_counts(16)?;
    let sums = table.source.any_elements(8)?;
    let Some(mut both) = Listening::<F>::open(table, 2, 8, point, counts, sums)? else {
        return Ok(());
    };
    for m in MOVES {
        let _ = both.note(table, m);
    }
    let weight = u64::from(both.host.product.book().weight());
    let number = u64::from(both.verifier.product.book().number());
    table.report.same("worked: the weight", weight, 6);
    table.report.same("worked: the number", number, 3);
    both.verifier.compare_bank(table);
    let mut sealed = seal(both);
    holds_bank(table, &sealed)?;
    ask_host(table, &mut sealed)?;
    ask_verifier(table, &mut sealed)?;
    Ok(())
}
