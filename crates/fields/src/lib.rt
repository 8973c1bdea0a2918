//! The four named fields: the residues modulo 65,537 and modulo 2,147,483,647, and the extension
//! of each; and the choice of one of them while a program runs.
#![tactic(auto)]

mod choice;
mod named;
mod task;

pub use choice::{UnknownField, with_field};
pub use named::{Mersenne31x2, Mod65537x2, NamedField};
pub use prime::{Mersenne31, Mod65537};
pub use task::FieldTask;
