// Elements in words.
use field::Field;
use std::fmt;

/// An element as it is written by hand: its low part, and its high part with t where it has one.
#[derive(Clone, Copy)]
pub struct Shown<F>(pub F);

impl<F: Field> fmt::Display for Shown<F> {
    fn fmt<W: fmt::Write>(&self, f: &mut fmt::Formatter<W>) -> fmt::Result {
        match (self.0.low(), self.0.high()) {
            (low, 0) => write!(f, "{low}"),
            (0, high) => write!(f, "{high} t"),
            (low, high) => write!(f, "{low} + {high} t"),
        }
    }
}
