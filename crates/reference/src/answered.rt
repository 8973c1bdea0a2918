// What a host gives for a question.

/// The claim, and the length of its sheet.
#[derive(Clone, Copy, PartialEq, Eq, Debug)]
pub struct Answered {
    /// The claim.
    pub claim: i64,
    /// How many bytes its sheet has.
    pub length: u64,
}
