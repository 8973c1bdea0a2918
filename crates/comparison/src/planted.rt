// Differences planted on purpose: the comparison has to report each.
use crate::arithmetic::compare_arithmetic;
use crate::games::play;
use fields::{Mod65537, Mod65537x2};
use generated::Plan;
use reference::{Arithmetic, Position, Stop};
use report::{Call, Refused, Report, Table};
use std::alloc::Global;

const PLANTED: &str = "planted";

// A game of some moves and questions.
const PLAN: Plan = Plan {
    rows: 3,
    columns: 8,
    spare: 1,
    moves: 20,
    questions: 6,
    sheets: 1,
};

// Whether a game differs in which the reference is told another field than the product's.
fn differs(heap: Global, field: Arithmetic) -> Result<bool, Stop> {
    let mut table = Table::new(heap, 99);
    table.source.set_field(field);
    play::<Mod65537>(&mut table, PLAN)?;
    Ok(table.report.differing() > 0)
}

// Whether the products of an extension differ from those with another t × t.
fn multiplies_otherwise(heap: Global) -> bool {
    let mut table = Table::new(heap, 99);
    table.source.set_field(Arithmetic {
        w: 5,
        ..Arithmetic::MOD_65537.extended()
    });
    compare_arithmetic::<Mod65537x2>(&mut table, 5);
    table.report.differing() > 0
}

// A refusal of a sheet at a place of its second line.
fn refused_at(place: u64) -> Refused {
    Refused {
        number: 30,
        position: Some(Position { line: 2, place }),
    }
}

// Differences handed to a report directly, each to a report of its own: whether each report has one.
fn counted(heap: Global) -> [bool; 6] {
    let mut less = Report::new(heap);
    less.same(PLANTED, 1, 2);
    let mut more = Report::new(heap);
    more.same(PLANTED, 2, 1);
    let mut test = Report::new(heap);
    test.holds(PLANTED, false);
    let mut count = Report::new(heap);
    count.outcome(Call::Answer, PLANTED, &Ok(1u64), &Ok(2));
    let mut place = Report::new(heap);
    place.outcome::<u64>(
        Call::Judge,
        PLANTED,
        &Err(refused_at(7)),
        &Err(refused_at(8)),
    );
    let mut number = Report::new(heap);
    number.number::<u64>(PLANTED, &Ok(1), Err(1));
    [less, more, test, count, place, number].map(|report| report.differing() > 0)
}

/// How many of the planted differences are reported, and of how many.
pub fn see_planted(heap: Global) -> Result<(u64, u64), Stop> {
    let field = Arithmetic::MOD_65537;
    let [less, more, test, count, place, number] = counted(heap);
    let all = [
        differs(heap, Arithmetic { p: 65_539, ..field })?,
        differs(heap, field.extended())?,
        differs(
            heap,
            Arithmetic {
                limit: 255,
                ..field
            },
        )?,
        multiplies_otherwise(heap),
        less,
        more,
        test,
        count,
        place,
        number,
    ];
    let seen = all.iter().filter(|seen| **seen).count();
    Ok((seen as u64, all.len() as u64))
}
