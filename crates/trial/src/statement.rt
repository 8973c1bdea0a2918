// What a host answers.

/// The claim of a host, and the sheet that states it.
#[derive(Drop)]
pub struct Statement {
    /// The claim.
    pub claim: i64,
    /// The sheet.
    pub sheet: String,
}
