//! The product and the reference side by side: single operations, the worked board, the limits of grids, weights and
//! memory, and generated games from the first move to the judged sheets; every answer is compared.
#![tactic(auto)]

mod arithmetic;
mod backward;
mod edges;
mod games;
mod limits;
mod planted;
mod sealing;
mod worked;

pub use arithmetic::compare_arithmetic;
pub use edges::play_edges;
pub use games::play;
pub use limits::{fill_weight, open_grid};
pub use planted::see_planted;
pub use worked::play_worked;
