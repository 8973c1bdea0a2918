//! Both ends of a game, each in the product and in the reference, told the same moves
//! and held against each other while they listen.
#![tactic(auto)]

mod end;
mod hosts;
mod listening;
mod names;
mod pair;
mod verifiers;

pub use end::End;
pub use hosts::HostPair;
pub use listening::Listening;
pub use names::Names;
pub use pair::Pair;
pub use verifiers::VerifierPair;
