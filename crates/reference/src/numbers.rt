// The numbers that the rules name.

/// How many goods there are; cell i and column i are of the goods i mod 8.
pub const GOODS: u64 = 8;

/// The greatest degree that a question may state.
pub const GREATEST_DEGREE: u64 = 252;

/// How many bytes a paper needs.
pub const PAPER: usize = 9216;
