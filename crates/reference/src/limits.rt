// Numbers within limits.

/// The least and the greatest number of those that are allowed.
#[derive(Clone, Copy, PartialEq, Eq, Debug)]
pub struct Limits {
    /// The least number.
    pub least: i64,
    /// The greatest number.
    pub greatest: i64,
}

impl Limits {
    /// Whether a number is allowed.
    pub fn allow(self, n: i64) -> bool {
        (self.least..=self.greatest).contains(&n)
    }
}
