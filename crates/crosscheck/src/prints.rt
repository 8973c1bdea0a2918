// The report as text.
use anyhow::ensure;
use report::{Call, Report};
use std::io;

// The numbers of all refusals.
const NUMBERS: [u64; 19] = [
    1, 2, 3, 10, 12, 13, 20, 21, 22, 30, 31, 40, 41, 42, 43, 44, 45, 50, 51,
];

// Numbers of refusals are below this, those outside the table too.
const BEYOND: u64 = 64;

// One call: how often it was granted, and how often it came to each refusal.
fn print_call(rt: &impl Print, report: &Report, call: Call) -> io::Result<()> {
    let granted = report.granted(call);
    print!(rt; "{call}: {granted} granted")?;
    for number in 1..BEYOND {
        let count = report.refused(call, number);
        if count > 0 {
            print!(rt; ", {number}: {count}")?;
        }
    }
    println!(rt; "")
}

// Whether a refusal's number came, from any call.
fn came(report: &Report, number: u64) -> bool {
    Call::ALL
        .iter()
        .any(|call| report.refused(*call, number) > 0)
}

// Every refusal has to come at least once.
fn print_missing(rt: &impl Print, report: &Report) -> anyhow::Result<()> {
    let mut complete = true;
    for number in NUMBERS {
        if !came(report, number) {
            println!(rt; "refusal {number} never came")?;
            complete = false;
        }
    }
    ensure!(complete, "not every refusal came");
    println!(rt; "every refusal of the table came at least once")?;
    Ok(())
}

// The first differences, and how many there are.
fn print_differences(rt: &impl Print, report: &Report) -> io::Result<()> {
    for difference in report.differences() {
        println!(rt; "{difference}")?;
    }
    let games = report.games();
    let compared = report.compared();
    let differing = report.differing();
    println!(rt; "{games} games, {compared} comparisons, {differing} differences")
}

/// What each call came to, what was compared, and whether every refusal came.
pub fn print_report(rt: &impl Print, report: &Report) -> anyhow::Result<()> {
    for call in Call::ALL {
        print_call(rt, report, call)?;
    }
    print_differences(rt, report)?;
    print_missing(rt, report)
}
