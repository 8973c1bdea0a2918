//! A form of two lines, to show what a form takes: `(grid N)`, and `(at A B)`
//! with A from 0 to 9 and B from -5 to 5.
#![tactic(auto)]

mod laws;
mod lines;
mod places;
mod read;
mod write;

pub use laws::toys_read_back;
pub use places::{bracket_passed, token_found};
pub use read::read_toy;
pub use write::write_toy;

#[cfg(test)]
mod tests;
