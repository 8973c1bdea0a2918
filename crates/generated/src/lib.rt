//! What games are played with, drawn by dice that fall alike in every run: grids, moves, questions, memory of any
//! content, and sheets that are false or damaged. All of it is in the plain numbers of the reference.
#![tactic(auto)]

mod damage;
mod dice;
mod falsehood;
mod plan;
mod slip;
mod source;
mod spacing;

pub use damage::Damage;
pub use dice::Dice;
pub use falsehood::Falsehood;
pub use plan::Plan;
pub use slip::Slip;
pub use source::Source;
