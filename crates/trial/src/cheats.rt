// What becomes of a host that cheats.
use crate::boxes::{SQUARES, verdict_at};
use crate::page::print_sheet;
use crate::sheets::sheet_of;

// A sheet for the squares that no honest host writes, and the points of the boxes that judge it.
#[derive(Clone, Copy)]
struct Cheat {
    what: &'static str,
    claim: i64,
    values: [u32; 3],
    points: &'static [u32],
}

const CHEATS: [Cheat; 3] = [
    Cheat {
        what: "13, with values that add up to it: 9, 4 and 17 in place of 9, 5 and 17",
        claim: 13,
        values: [9, 4, 17],
        points: &[0, 2, 5, 300],
    },
    Cheat {
        what: "13, with the true values",
        claim: 13,
        values: [9, 5, 17],
        points: &[5],
    },
    Cheat {
        what: "65551, which is 14 modulo 65537, with the true values",
        claim: 65_551,
        values: [9, 5, 17],
        points: &[5],
    },
];

/// Prints each sheet, and what boxes find of it.
pub fn print(rt: &(impl Print + AllocGlobal)) -> anyhow::Result<()> {
    println!(rt;
        "A host that cheats: the squares of all counts add up to {SQUARES}, but it claims"
    )?;
    for cheat in CHEATS {
        println!(rt; "  {}", cheat.what)?;
        let sheet = sheet_of(rt.alloc(), cheat.claim, cheat.values)?;
        print_sheet(rt, sheet.as_str())?;
        for point in cheat.points {
            let verdict = verdict_at(*point, sheet.as_str());
            println!(rt; "    box at the point {point}: {verdict}")?;
        }
    }
    println!(rt;
        "  A sheet for the squares on 2 rows has degree 2, so a false one passes at no more than 2 of the 65537 points."
    )?;
    Ok(())
}
