// Refusals in words.
use refusal::Refusal;
use std::fmt;

/// A refusal, with its number and its words.
#[derive(Clone, Copy)]
pub struct Refused(pub Refusal);

impl fmt::Display for Refused {
    fn fmt<W: fmt::Write>(&self, f: &mut fmt::Formatter<W>) -> fmt::Result {
        let number = self.0.number();
        let why = self.0;
        write!(f, "refused ({number}): {why}")
    }
}
