// The memory that an answer is lent.

/// How much memory an answer is lent.
#[derive(Clone, Copy, PartialEq, Eq, Debug)]
pub struct Room {
    /// How many elements the tray has.
    pub tray: u64,
    /// How many bytes the paper has.
    pub paper: u64,
}
