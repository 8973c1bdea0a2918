// What becomes of sheets that are damaged on their way.
use crate::boxes::{SQUARES, verdict_at};
use crate::game::POINT;
use crate::page::print_sheet;
use crate::sheets::sheet_of;
use std::alloc::{AllocError, Global};

// A text of the honest sheet, and the text that stands in its place.
#[derive(Clone, Copy)]
struct Damage {
    what: &'static str,
    old: &'static str,
    new: &'static str,
}

const DAMAGES: [Damage; 6] = [
    Damage {
        what: "more spaces and zeros",
        old: "(claim (4 0 0) 14)\n",
        new: "  ( claim(4 -0 0)  0014 )\n",
    },
    Damage {
        what: "a tab in place of a space",
        old: "(sheet 65537",
        new: "(sheet\t65537",
    },
    Damage {
        what: "another grid",
        old: "(grid 2 8)",
        new: "(grid 3 8)",
    },
    Damage {
        what: "a value line left out",
        old: "(at 1 (5 0))\n",
        new: "",
    },
    Damage {
        what: "a part that is p",
        old: "(9 0)",
        new: "(65537 0)",
    },
    Damage {
        what: "text behind the end",
        old: "(end)\n",
        new: "(end)\n more",
    },
];

impl Damage {
    // The sheet with this damage.
    fn applied(self, heap: Global, sheet: &str) -> Result<String, AllocError> {
        sheet.replacen(heap, self.old, self.new, 1)
    }
}

/// Prints each damaged sheet, and what a box finds of it.
pub fn print(rt: &(impl Print + AllocGlobal)) -> anyhow::Result<()> {
    println!(rt; "The true sheet with something changed, judged by a box at the point {POINT}")?;
    println!(rt; "  no sheet at all")?;
    println!(rt; "    box: {}", verdict_at(POINT, ""))?;
    let honest = sheet_of(rt.alloc(), SQUARES, [9, 5, 17])?;
    for damage in DAMAGES {
        let sheet = damage.applied(rt.alloc(), honest.as_str())?;
        println!(rt; "  {}", damage.what)?;
        print_sheet(rt, sheet.as_str())?;
        println!(rt; "    box: {}", verdict_at(POINT, sheet.as_str()))?;
    }
    Ok(())
}
