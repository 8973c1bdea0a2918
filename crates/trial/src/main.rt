//! A program that plays trials on a small board, from the first move to the judged sheets, and prints a report for
//! whoever coordinates the trials of a club.
#![tactic(auto)]

mod book_words;
mod boxes;
mod cheats;
mod count_table;
mod damage;
mod element;
mod ends;
mod field_list;
mod field_words;
mod game;
mod page;
mod questions;
mod refused;
mod sheets;
mod statement;
mod told_words;
mod trials;
mod verdict;

fn run(rt: &HostRuntime) -> anyhow::Result<()> {
    field_list::print(rt)?;
    game::play(rt)?;
    cheats::print(rt)?;
    damage::print(rt)?;
    trials::print(rt)
}

fn main(rt: HostRuntime) -> anyhow::Result<()> {
    run(&rt)
}
