// Moves told to an end, again and again. An end takes moves until its limit of weights, and then another game is opened.
use crate::moves::Moves;
use crate::subject::Subject;
use crate::tally::Tally;
use board::{Bank, Grid};
use field::Field;
use refusal::Refusal;
use std::alloc::Global;

// How long a game is, the first being game 0: as long as the limit allows, and the last one as long as is left.
fn length_of(game: u32, times: u32, longest: u32) -> u32 {
    times
        .saturating_sub(game.saturating_mul(longest))
        .min(longest)
}

// Tells a new end moves, and tallies what it answers and what then stands in the bank.
fn play<S: Subject>(
    grid: Grid,
    moves: &mut Moves,
    length: u32,
    bank: &mut Bank<'_, S::Cell>,
    tally: &mut Tally,
) -> Result<(), Refusal> {
    let mut subject = S::open(grid, bank)?;
    for m in moves.take(length as usize) {
        match subject.note(bank, m) {
            Ok(()) => S::tally(grid, bank, m, tally),
            Err(why) => tally.refusal(why),
        }
    }
    Ok(())
}

/// Tells ends so many moves, game after game.
pub fn note<S: Subject>(heap: Global, grid: Grid, times: u32) -> anyhow::Result<Tally> {
    let mut tally = Tally::new();
    let mut cells = vec![in heap; S::blank(); S::cells(grid) as usize]?;
    let mut bank = Bank::new(cells.as_mut_slice());
    let mut moves = Moves::new(grid, 1);
    let longest = S::Over::LIMIT;
    for game in 0..=times / longest {
        let length = length_of(game, times, longest);
        play::<S>(grid, &mut moves, length, &mut bank, &mut tally)?;
    }
    Ok(tally)
}
