//! The box: the verifier of the product, which keeps one field element for each column and a secret point.
//! It follows moves, and then judges sheets at its point.
#![tactic(auto)]

ghost use Rattle.verifier.specs.Notes.{VerifierKeepsLedger};

use field::Field;

mod judging;
mod listening;
mod sealed;
mod weighing;

pub use listening::Listening;
pub use sealed::Sealed;

/// Told any moves after a granted open, a box answers and stands as a ledger fed those moves, and its bank is the columns of the
/// ledger's counts.
pub fn verifier_keeps_ledger<F: Field>()
    ensures { VerifierKeepsLedger F.Field.model }
{}
