//! What the product and the reference say, held against each other: outcomes of calls in plain numbers,
//! and the report, in which no difference is lost.
#![tactic(auto)]

mod call;
mod counts;
mod difference;
mod outcome;
mod plain;
mod refused;
mod report;
mod table;

pub use call::Call;
pub use difference::Difference;
pub use outcome::{Outcome, bare, found, number_of, wanted};
pub use plain::{element, elements, own_move, parts, same, same_elements};
pub use refused::Refused;
pub use report::Report;
pub use table::Table;
