//! A program that plays the worked board and thousands of generated games at the product and at the reference, compares
//! everything that both say and leave behind, and prints what was compared. Any difference fails the run.
#![tactic(auto)]

mod over_fields;
mod prints;
mod rounds;

use anyhow::{anyhow, ensure};
use comparison::see_planted;
use report::Table;

// The seed of the dice.
const SEED: u64 = 20_240_917;

fn run(rt: &HostRuntime) -> anyhow::Result<()> {
    let heap = rt.alloc();
    let mut table = Table::new(heap, SEED);
    over_fields::play_all(&mut table)?;
    prints::print_report(rt, &table.report)?;
    let (seen, planted) = see_planted(heap).map_err(|_| anyhow!(
        "no memory for a planted difference"
    ))?;
    println!(rt; "planted differences: {planted}, reported: {seen}")?;
    ensure!(seen == planted, "a planted difference was not reported");
    ensure!(
        table.report.differing() == 0,
        "product and reference differ"
    );
    Ok(())
}

fn main(rt: HostRuntime) -> anyhow::Result<()> {
    run(&rt)
}
