//! Tests of both ends: which opens and moves they take, what their books and banks hold,
//! and what they answer and judge on worked boards.
#![tactic(auto)]

#[cfg(test)]
mod answers;
#[cfg(test)]
mod boards;
#[cfg(test)]
mod cases;
#[cfg(test)]
mod judgements;
#[cfg(test)]
mod moves;
#[cfg(test)]
mod opens;
