// How large a sheet may be.

/// A sheet has at most this many values: one more than the largest degree.
pub const MOST_VALUES: usize = 253;

/// No sheet of so many values has more bytes.
pub const ENOUGH_PAPER: usize = 9216;
