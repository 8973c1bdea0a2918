//! Fields behind one interface: what code above may use of a field,
//! and the laws that every field keeps.
#![tactic(auto)]

mod base;
mod field;
mod limits;

pub use base::BaseField;
pub use field::Field;
pub use limits::{GREATEST_LIMIT, INVERSES};
