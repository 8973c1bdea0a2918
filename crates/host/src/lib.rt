//! The host: the prover of the product, which keeps a count for every cell of the board.
//! It counts moves, and then answers questions about the counts with sheets.
#![tactic(auto)]

ghost use Rattle.host.specs.Notes.{HostKeepsLedger};

mod answering;
mod columns;
mod counts;
mod listening;
mod sealed;
mod values;

pub use listening::Listening;
pub use sealed::Sealed;

/// Told any moves after a granted open, a host answers and stands as a ledger fed those moves.
pub fn host_keeps_ledger()
    ensures { HostKeepsLedger }
{}
