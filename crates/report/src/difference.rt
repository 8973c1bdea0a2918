// Differences between the product and the reference.
use std::fmt;

/// A difference: in which game it came, what differs, and both values.
#[derive(Clone, Copy, PartialEq, Eq, Debug)]
pub struct Difference {
    /// The game, from 1.
    pub game: u64,
    /// What differs.
    pub what: &'static str,
    /// What the product has.
    pub found: u64,
    /// What the reference has.
    pub wanted: u64,
}

impl fmt::Display for Difference {
    fn fmt<W: fmt::Write>(&self, f: &mut fmt::Formatter<W>) -> fmt::Result {
        let Difference {
            game,
            what,
            found,
            wanted,
        } = *self;
        write!(
            f,
            "game {game}: {what}: the product has {found}, the reference {wanted}"
        )
    }
}
