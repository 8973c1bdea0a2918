//! Questions about a board's counts: one interface for all of them,
//! and what makes a question lawful.
#![tactic(auto)]

mod fit;
mod question;

pub use board::Tag;
pub use fit::Fit;
pub use question::Question;
