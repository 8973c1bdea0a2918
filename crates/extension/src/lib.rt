//! The quadratic extension of any base field: pairs a + b t,
//! where t × t is the element that the base field names, which is no square.
#![tactic(auto)]

mod extension;

pub use extension::Extension;
