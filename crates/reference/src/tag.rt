// Tags.
use std::fmt;

/// The three numbers that a sheet calls a question by.
#[derive(Clone, Copy, PartialEq, Eq, Debug)]
pub struct Tag {
    /// The kind of question.
    pub kind: u64,
    /// The first number, 0 where the kind has none.
    pub first: u64,
    /// The second number, 0 where the kind has none.
    pub second: u64,
}

/// As a sheet has it.
impl fmt::Display for Tag {
    fn fmt<W: fmt::Write>(&self, f: &mut fmt::Formatter<W>) -> fmt::Result {
        let Tag {
            kind,
            first,
            second,
        } = *self;
        write!(f, "({kind} {first} {second})")
    }
}
