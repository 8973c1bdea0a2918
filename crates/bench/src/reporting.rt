// A line for each work.
use crate::calls::Call;
use crate::doing::done;
use crate::field_name::FieldName;
use crate::tally::Tally;
use crate::work::Work;
use board::Grid;
use std::alloc::Global;

/// Does the work, and prints what it was, how many calls were refused, and the checksum.
pub fn report(rt: &impl Print, heap: Global, work: Work) -> anyhow::Result<()> {
    let Work {
        field,
        call,
        grid,
        times,
    } = work;
    let rows = grid.rows;
    let columns = grid.columns;
    let Tally { checksum, refused } = done(heap, work)?;
    println!(rt;
        "{field} {call} {rows} {columns} {times}: {refused} refused, checksum {checksum:016x}"
    )?;
    Ok(())
}

/// Every call over every field, three times on a board of 4 rows and 16 columns.
pub fn report_all(rt: &impl Print, heap: Global) -> anyhow::Result<()> {
    let grid = Grid::new(4, 16)?;
    for field in FieldName::ALL {
        for call in Call::ALL {
            let work = Work {
                field,
                call,
                grid,
                times: 3,
            };
            report(rt, heap, work)?;
        }
    }
    Ok(())
}
