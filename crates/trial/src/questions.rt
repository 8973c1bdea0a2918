// This season's questions, asked of the host and judged by the box.
use crate::boxes::{SQUARES, secret_point};
use crate::element::Shown;
use crate::ends::Sealed;
use crate::game::POINT;
use crate::page::print_sheet;
use crate::refused::Refused;
use crate::verdict::Verdict;
use fields::Mod65537;
use question::{Fit, Question};
use season::{Cell, Goods, Range, Squares};

// What a question states: its tag, its degree, its claims, and where it fits its rule at the box's secret point.
fn describe<Q: Question<Mod65537>>(
    rt: &impl Print,
    ends: &Sealed<'_>,
    question: &Q,
) -> anyhow::Result<()> {
    let grid = ends.verifier.book().grid();
    let tag = question.tag();
    let kind = tag.kind;
    let first = tag.first;
    let second = tag.second;
    let degree = question.degree(grid);
    let least = question.least();
    let greatest = question.greatest();
    println!(rt;
        "    its tag is {kind} {first} {second}, its degree {degree}; claims are from {least} to {greatest}"
    )?;
    if question.fit(grid) == Fit::Fits {
        let columns = ends.sums.front(grid.columns as usize)?;
        let rule = question.rule(grid, secret_point(POINT), columns);
        println!(rt;
            "    it fits, and its rule at the secret point is {}",
            Shown(rule)
        )?;
    } else {
        println!(rt; "    it does not fit")?;
    }
    Ok(())
}

// Has the host answer, and the box judge its sheet.
fn ask<Q: Question<Mod65537>>(
    rt: &(impl Print + AllocGlobal),
    ends: &Sealed<'_>,
    question: &Q,
    truth: i64,
) -> anyhow::Result<()> {
    match ends.answer(rt.alloc(), question)? {
        Ok(statement) => {
            let claim = statement.claim;
            let length = statement.sheet.len();
            println!(rt; "    host: claims {claim}, on a sheet of {length} bytes")?;
            print_sheet(rt, statement.sheet.as_str())?;
            let found = ends.judge(question, statement.sheet.as_str());
            println!(rt; "    box: {}", Verdict { found, truth })?;
        }
        Err(why) => println!(rt; "    host: {}", Refused(why))?,
    }
    Ok(())
}

// Describes a question, and asks it.
fn describe_and_ask<Q: Question<Mod65537>>(
    rt: &(impl Print + AllocGlobal),
    ends: &Sealed<'_>,
    what: &str,
    question: &Q,
    truth: i64,
) -> anyhow::Result<()> {
    println!(rt; "  {what}")?;
    describe(rt, ends, question)?;
    ask(rt, ends, question, truth)
}

/// Asks this season's questions, with what is true of the game's counts, and one that fits no board.
pub fn print(rt: &(impl Print + AllocGlobal), ends: &Sealed<'_>) -> anyhow::Result<()> {
    println!(rt; "Questions asked of the host, whose sheets the box judges")?;
    let cell = Cell { index: 9 };
    describe_and_ask(rt, ends, "the count of cell 9", &cell, -2)?;
    let goods = Goods { kind: 1 };
    describe_and_ask(rt, ends, "the counts of goods 1", &goods, -2)?;
    let range = Range { first: 8, last: 9 };
    describe_and_ask(rt, ends, "the counts of cells 8 to 9", &range, -1)?;
    let backward = Range { first: 9, last: 8 };
    describe_and_ask(rt, ends, "the counts of cells 9 to 8", &backward, 0)?;
    describe_and_ask(rt, ends, "the squares of all counts", &Squares, SQUARES)
}
