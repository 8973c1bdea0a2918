// What is wrong with a sheet.

/// What is wrong with a piece of a sheet, each with its number in the table of refusals.
#[derive(Clone, Copy, PartialEq, Eq, Debug)]
pub enum Fault {
    /// It is neither a word nor a number.
    Malformed = 30,
    /// The grammar has another piece.
    Unexpected = 31,
    /// It is not the number of the field.
    Field = 40,
    /// It is not the number of the grid.
    Grid = 41,
    /// It is not the number of the tag.
    Tag = 42,
    /// The claim is beyond its limits.
    Claim = 43,
    /// The value line is not the next one.
    Index = 44,
    /// It is no part of an element.
    Part = 45,
}

impl Fault {
    /// Its number in the table of refusals.
    pub fn number(self) -> u64 {
        self as u64
    }
}
