// Grids at their limits, and a weight at its limit.
use field::Field;
use pairs::{HostPair, VerifierPair};
use reference::{Element, Move, Refusal, Stop};
use report::Table;

/// Holds both ends to whether they open on a grid, with banks enough for the few cells of a grid at the limits.
pub fn open_grid<F: Field>(
    table: &mut Table,
    rows: u64,
    columns: u64,
    opens: bool,
) -> Result<(), Stop> {
    table.report.next_game();
    let counts = table.source.any_counts(520)?;
    let sums = table.source.any_elements(20)?;
    let heap = table.source.heap;
    let own_counts = HostPair::<F>::cells_of(heap, counts.as_slice())?;
    let own_sums = VerifierPair::<F>::cells_of(heap, sums.as_slice())?;
    let host = HostPair::<F>::open(table, rows, columns, (), own_counts, counts);
    let verifier = VerifierPair::<F>::open(table, rows, columns, Element::ONE, own_sums, sums);
    let report = &mut table.report;
    report.holds("a host on a grid at the limits", host.is_some() == opens);
    report.holds("a box on a grid at the limits", verifier.is_some() == opens);
    Ok(())
}

/// Moves of 256 at a host until the weight is at the limit, and then moves that are too heavy.
pub fn fill_weight<F: Field>(table: &mut Table) -> Result<(), Stop> {
    table.report.next_game();
    let counts = table.source.any_counts(8)?;
    let own_counts = HostPair::<F>::cells_of(table.source.heap, counts.as_slice())?;
    let Some(mut host) = HostPair::<F>::open(table, 1, 8, (), own_counts, counts) else {
        return Ok(());
    };
    let limit = table.source.field.limit;
    let cell = 0;
    for _ in 0..limit / 256 {
        let told = host.note(table, Move { cell, amount: 256 });
        table
            .report
            .number("a move up to the limit of weights", &told, Ok(()));
    }
    let amount = i64::try_from(limit % 256).unwrap_or(0);
    let _ = host.note(table, Move { cell, amount });
    for amount in [1, -1, 256, -256] {
        let told = host.note(table, Move { cell, amount });
        table.report.number(
            "a move beyond the limit of weights",
            &told,
            Err(Refusal::TooHeavy.number()),
        );
    }
    host.compare_bank(table);
    Ok(())
}
