// What a sheet says.
use crate::element::Element;

/// A claim, and the values that back it.
#[derive(Drop)]
pub struct Sheet {
    /// The claim.
    pub claim: i64,
    /// The values at 0, 1, 2, ..
    pub values: Vec<Element>,
}
