// Tags.

/// The three numbers that name a question on a sheet.
#[derive(Clone, Copy, PartialEq, Eq, Debug)]
pub struct Tag {
    /// The kind of question.
    pub kind: u32,
    /// The first number of the question, 0 where its kind has none.
    pub first: u32,
    /// The second number of the question, 0 where its kind has none.
    pub second: u32,
}
