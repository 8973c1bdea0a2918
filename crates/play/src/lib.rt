//! A whole trial, from the opening of both ends to the judged sheet,
//! and with it the promise that the two ends make.
#![tactic(auto)]

ghost use Rattle.play.specs.Adequacy.{RunsAreCalls};

mod memory;
mod played;
mod telling;
mod told;
mod trial;

use field::Field;
pub use memory::Memory;
pub use played::Played;
pub use told::Told;
pub use trial::{exchange, play_trial};

/// Each step in the promise's runs is a call, with what its contract says that it answers and leaves; and a granted open, moves and a
/// seal lead to the ends that a trial's contract names.
pub fn runs_are_calls<F: Field>()
    ensures { RunsAreCalls F.Field.model }
{}
