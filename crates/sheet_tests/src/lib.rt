//! Tests of the reading of sheets, against values that another reader computed,
//! and of what each refusal says.
#![tactic(auto)]

#[cfg(test)]
mod cases;
#[cfg(test)]
mod tables;
#[cfg(test)]
mod words;
