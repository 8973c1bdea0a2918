// Sheets that say something else than the honest one.
use crate::slip::Slip;
use reference::{Arithmetic, Element, Sheet};
use std::alloc::{AllocError, Global};

/// How a sheet differs from the honest one.
#[derive(Clone, Copy, PartialEq, Eq, Debug)]
pub enum Falsehood {
    /// The claim is so much more.
    Claim(i64),
    /// One value is another, where there is one at the place.
    Value {
        /// Where it stands.
        place: usize,
        /// What stands there.
        value: Element,
    },
    /// The claim and the first value are so much more.
    ClaimAndFirst(i64),
    /// Every value slips, and the claim with the sum over the rows.
    Slipped(Slip),
}

impl Falsehood {
    /// What a sheet says that differs so, on a board of so many rows.
    pub fn told(
        self,
        heap: Global,
        field: Arithmetic,
        rows: u64,
        honest: &Sheet,
    ) -> Result<Sheet, AllocError> {
        let mut values = honest.values.as_slice().to_vec(heap)?;
        let raised = match self {
            Falsehood::Claim(by) => by,
            Falsehood::Value { place, value } => {
                if let Some(told) = values.get_mut(place) {
                    *told = value;
                }
                0
            }
            Falsehood::ClaimAndFirst(by) => {
                if let Some(told) = values.first_mut() {
                    *told = field.sum(*told, field.image(by));
                }
                by
            }
            Falsehood::Slipped(slip) => {
                for (told, j) in values.iter_mut().zip(0u64..) {
                    *told = field.sum(*told, field.image(slip.at(j)));
                }
                slip.sum(rows)
            }
        };
        Ok(Sheet {
            claim: honest.claim.wrapping_add(raised),
            values,
        })
    }
}
