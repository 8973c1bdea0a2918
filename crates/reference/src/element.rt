// The elements of every field: pairs of residues.
use std::fmt;

/// The element low + high × t. Both parts are below p, and high is 0 where e is 1.
#[derive(Clone, Copy, PartialEq, Eq, Debug)]
pub struct Element {
    /// The part without t.
    pub low: u64,
    /// The part with t.
    pub high: u64,
}

impl Element {
    /// Zero.
    pub const ZERO: Element = Element { low: 0, high: 0 };

    /// One.
    pub const ONE: Element = Element { low: 1, high: 0 };

    /// A residue as an element.
    pub fn whole(low: u64) -> Element {
        Element { low, high: 0 }
    }
}

/// As a sheet has it.
impl fmt::Display for Element {
    fn fmt<W: fmt::Write>(&self, f: &mut fmt::Formatter<W>) -> fmt::Result {
        let Element { low, high } = *self;
        write!(f, "({low} {high})")
    }
}
