//! A program that does one call many times, so that its time can be measured from outside: bench FIELD CALL ROWS COLUMNS
//! TIMES. With no words it does every call over every field a few times on a small board.
#![tactic(auto)]

mod answering;
mod calls;
mod doing;
mod field_name;
mod judging;
mod memory;
mod mistake;
mod moves;
mod noting;
mod reading;
mod reporting;
mod statement;
mod subject;
mod tally;
mod work;
mod writing;

use std::env;
use work::Work;

fn run(rt: &HostRuntime) -> anyhow::Result<()> {
    let words: Vec<String> = env::args(rt)?.skip(1).collect(rt.alloc())?;
    match Work::of_words(words.as_slice())? {
        Some(work) => reporting::report(rt, rt.alloc(), work),
        None => reporting::report_all(rt, rt.alloc()),
    }
}

fn main(rt: HostRuntime) -> anyhow::Result<()> {
    run(&rt)
}
