// Places of a sheet.

/// Where a fault of a sheet lies.
#[derive(Clone, Copy, PartialEq, Eq, Debug)]
pub struct Position {
    /// The line, from 1.
    pub line: u64,
    /// How many bytes stand before it.
    pub place: u64,
}

impl Position {
    /// Where every sheet begins.
    pub const START: Position = Position { line: 1, place: 0 };
}
