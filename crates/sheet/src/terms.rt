// The terms of a sheet.
use board::Tag;

/// What a sheet has to agree with besides the field.
#[derive(Clone, Copy, PartialEq, Eq, Debug)]
pub struct Terms {
    /// The rows of the grid.
    pub rows: u32,
    /// The columns of the grid.
    pub columns: u32,
    /// The tag of the question.
    pub tag: Tag,
    /// The least claim.
    pub least: i64,
    /// The greatest claim.
    pub greatest: i64,
    /// The degree of the question: the sheet has degree + 1 values.
    pub degree: u32,
}
