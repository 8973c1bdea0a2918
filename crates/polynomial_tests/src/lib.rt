//! Tests of the Lagrange basis and of interpolation,
//! against values computed by another program.
#![tactic(auto)]

#[cfg(test)]
mod basis;
#[cfg(test)]
mod interpolation;
