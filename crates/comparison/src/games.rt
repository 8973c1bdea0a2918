// Whole games: both ends opened, told moves, sealed and asked.
use crate::sealing::seal;
use field::Field;
use generated::Plan;
use inquiry::inquire_any;
use pairs::Listening;
use reference::{Ledger, Move, Stop};
use report::{Table, number_of, same, same_elements, wanted};
use std::alloc::AllocError;

// Tells all a move, and holds the ends' answers to the ledger's.
fn tell<F: Field>(table: &mut Table, ledger: &mut Ledger, both: &mut Listening<F>, m: Move) {
    let told = number_of(&wanted(ledger.note(m)));
    let (at_host, at_verifier) = both.note(table, m);
    let report = &mut table.report;
    report.number("the ledger's answer, at the host", &at_host, told);
    report.number("the ledger's answer, at the box", &at_verifier, told);
    report.same(
        "the ledger's weight",
        both.host.standing.weight,
        ledger.standing().weight,
    );
}

// Holds the banks to what the ledger's counts come to.
fn compare_banks<F: Field>(
    table: &mut Table,
    ledger: &Ledger,
    both: &Listening<F>,
) -> Result<(), AllocError> {
    let Table { source, report } = table;
    let at = both.host.standing;
    let counts = ledger.all_counts(source.heap)?;
    let columns = source
        .game(at)
        .columns_at(counts.as_slice(), both.verifier.secret)?;
    let found = both.host.cells.get(0..at.cells() as usize).unwrap_or(&[]);
    report.holds(
        "the ledger's counts",
        same(found, counts.as_slice(), |count| i64::from(count)),
    );
    let found = both
        .verifier
        .cells
        .get(0..at.columns as usize)
        .unwrap_or(&[]);
    report.holds(
        "the columns of the ledger's counts",
        same_elements(found, columns.as_slice()),
    );
    Ok(())
}

// Plays on from the opened ends.
fn play_on<F: Field>(table: &mut Table, plan: Plan, both: Listening<F>) -> Result<(), Stop> {
    let mut both = both;
    let at = both.host.standing;
    let mut ledger = Ledger::open(table.source.heap, at.rows, at.columns, at.limit)?;
    for _ in 0..plan.moves {
        let m = table.source.any_move(at.cells());
        tell(table, &mut ledger, &mut both, m);
    }
    both.host.compare_bank(table);
    both.verifier.compare_bank(table);
    compare_banks(table, &ledger, &both)?;
    let mut sealed = seal(both);
    for _ in 0..plan.questions {
        let ask = table.source.any_ask(at);
        inquire_any(table, &mut sealed, ask, plan.sheets)?;
    }
    Ok(())
}

/// Plays a game of this plan over a field.
pub fn play<F: Field>(table: &mut Table, plan: Plan) -> Result<(), Stop> {
    table.report.next_game();
    let source = &mut table.source;
    let counts = source.any_counts(plan.host_cells())?;
    let sums = source.any_elements(plan.verifier_cells())?;
    let point = source.any_point(plan.rows);
    match Listening::<F>::open(table, plan.rows, plan.columns, point, counts, sums)? {
        Some(both) => play_on(table, plan, both),
        None => Ok(()),
    }
}
