//! The refusals of the whole product: why a call does not do what it was asked,
//! each with its number and its words.
#![tactic(auto)]

mod fault;
mod refusal;

pub use fault::Fault;
pub use refusal::Refusal;
