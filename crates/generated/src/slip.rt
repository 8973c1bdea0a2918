// Slips.

/// A slip: at j it adds factor × (j − root) to a value, so at its root it leaves the value as it was.
#[derive(Clone, Copy, PartialEq, Eq, Debug)]
pub struct Slip {
    /// What each step away from the root adds.
    pub factor: i64,
    /// Where it adds nothing.
    pub root: i64,
}

impl Slip {
    /// What it adds at j.
    pub fn at(self, j: u64) -> i64 {
        let step = i64::try_from(j).unwrap_or(0).wrapping_sub(self.root);
        self.factor.wrapping_mul(step)
    }

    /// What it adds at 0 to n − 1 together.
    pub fn sum(self, n: u64) -> i64 {
        (0..n).fold(0i64, |all, j| all.wrapping_add(self.at(j)))
    }
}
