// The numbers that every field keeps to.

/// The whole numbers from 1 to this one have their inverses at hand.
pub const INVERSES: u32 = 252;

/// No field's limit of weights is above this: its square is below the characteristic, which is at most 2,147,483,647.
pub const GREATEST_LIMIT: u32 = 46_340;
