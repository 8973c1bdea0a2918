// The text of a sheet, as a host writes it.
use crate::element::Element;
use crate::front::put_front;
use crate::game::Game;
use crate::numbers::{GREATEST_DEGREE, PAPER};
use crate::refusal::Refusal;
use crate::stop::Stop;
use crate::tag::Tag;
use std::alloc::AllocError;
use std::fmt::Write;

impl Game {
    // The lines for the field, the grid, the tag and the claim.
    fn head(self, tag: Tag, claim: i64) -> Result<String, AllocError> {
        let rows = self.at.rows;
        let columns = self.at.columns;
        let p = self.field.p;
        let e = self.field.e;
        format!(in self.heap; "(sheet {p} {e} (grid {rows} {columns}))\n(claim {tag} {claim})\n")
    }

    /// The whole sheet of a claim and values, under a tag.
    pub fn write_sheet(
        self,
        tag: Tag,
        claim: i64,
        values: &[Element],
    ) -> Result<String, AllocError> {
        let mut all = self.head(tag, claim)?;
        for (j, value) in values.iter().enumerate() {
            write!(all, "(at {j} {value})\n")?;
        }
        all.push_str("(end)\n")?;
        Ok(all)
    }

    /// Lays a sheet onto a paper, and tells its length. Refused with 22 where the paper is too short, or the values are
    /// more than a sheet may have, and nothing changes.
    pub fn lay_sheet(
        self,
        tag: Tag,
        claim: i64,
        values: &[Element],
        paper: &mut [u8],
    ) -> Result<u64, Stop> {
        if paper.len() < PAPER || values.len() as u64 > GREATEST_DEGREE + 1 {
            return Err(Stop::from(Refusal::PaperShort));
        }
        let text = self.write_sheet(tag, claim, values)?;
        put_front(paper, text.as_bytes());
        Ok(text.len() as u64)
    }
}
