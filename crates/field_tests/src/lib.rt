//! Tests of the four fields, against values computed by another program,
//! and of the choice of one by its numbers.
#![tactic(auto)]

#[cfg(test)]
mod cases;
#[cfg(test)]
mod choices;
#[cfg(test)]
mod extensions;
#[cfg(test)]
mod prime_fields;
