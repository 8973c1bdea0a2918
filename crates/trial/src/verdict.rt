// What a box finds of a sheet.
use crate::refused::Refused;
use refusal::Refusal;
use std::fmt;

/// What a box finds of a sheet, beside the true count.
#[derive(Clone, Copy)]
pub struct Verdict {
    /// The claim that it accepts, or its refusal.
    pub found: Result<i64, Refusal>,
    /// The true count.
    pub truth: i64,
}

impl fmt::Display for Verdict {
    fn fmt<W: fmt::Write>(&self, f: &mut fmt::Formatter<W>) -> fmt::Result {
        match self.found {
            Ok(claim) if claim == self.truth => write!(f, "accepted {claim}, which is true"),
            Ok(claim) => write!(f, "accepted {claim}, which is false: the box is fooled"),
            Err(why) => write!(f, "{}", Refused(why)),
        }
    }
}
