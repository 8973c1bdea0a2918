// The memory that a trial is lent.

/// The memory that a trial is lent, of any content and length. All of it stays the caller's, who finds in it what the trial left.
#[derive(Drop)]
pub struct Memory<'m, F> {
    /// For the host's bank: a cell for each cell of the board is enough.
    pub counts: &'m mut [i32],
    /// For the box's bank: a cell for each column is enough.
    pub sums: &'m mut [F],
    /// The tray, which both ends use: degree + 1 + columns elements are enough.
    pub tray: &'m mut [F],
    /// The paper for the sheet: 9,216 bytes are enough.
    pub paper: &'m mut [u8],
}
