// What the grammar has, piece by piece.
use crate::ask::Ask;
use crate::fault::Fault;
use crate::game::Game;
use crate::limits::Limits;
use crate::want::Want;
use std::alloc::AllocError;

impl Game {
    // `(sheet p e (grid h v))`
    fn add_head(self, wants: &mut Vec<Want>) -> Result<(), AllocError> {
        wants.extend_from_slice(&[
            Want::Text("("),
            Want::Text("sheet"),
            Want::Number(self.field.p, Fault::Field),
            Want::Number(self.field.e, Fault::Field),
            Want::Text("("),
            Want::Text("grid"),
            Want::Number(self.at.rows, Fault::Grid),
            Want::Number(self.at.columns, Fault::Grid),
            Want::Text(")"),
            Want::Text(")"),
            Want::Text("\n"),
        ])
    }

    // `(claim (k a b) c)`
    fn add_claim(self, wants: &mut Vec<Want>, ask: Ask) -> Result<(), AllocError> {
        let tag = ask.tag();
        wants.extend_from_slice(&[
            Want::Text("("),
            Want::Text("claim"),
            Want::Text("("),
            Want::Number(tag.kind, Fault::Tag),
            Want::Number(tag.first, Fault::Tag),
            Want::Number(tag.second, Fault::Tag),
            Want::Text(")"),
            Want::Kept(ask.limits(self.field.limit), Fault::Claim),
            Want::Text(")"),
            Want::Text("\n"),
        ])
    }

    // `(at j (low high))`
    fn add_value(self, wants: &mut Vec<Want>, j: u64) -> Result<(), AllocError> {
        let low = Limits {
            least: 0,
            greatest: i64::try_from(self.field.p).unwrap_or(0).wrapping_sub(1),
        };
        let high = match self.field.e {
            1 => Limits {
                least: 0,
                greatest: 0,
            },
            _ => low,
        };
        wants.extend_from_slice(&[
            Want::Text("("),
            Want::Text("at"),
            Want::Number(j, Fault::Index),
            Want::Text("("),
            Want::Kept(low, Fault::Part),
            Want::Kept(high, Fault::Part),
            Want::Text(")"),
            Want::Text(")"),
            Want::Text("\n"),
        ])
    }

    // The whole sheet for a question: its lines, `(end)`, and nothing behind.
    pub(crate) fn wants(self, ask: Ask) -> Result<Vec<Want>, AllocError> {
        let mut wants = Vec::new(self.heap);
        self.add_head(&mut wants)?;
        self.add_claim(&mut wants, ask)?;
        for j in 0..ask.size(self.at) {
            self.add_value(&mut wants, j)?;
        }
        wants.extend_from_slice(&[
            Want::Text("("),
            Want::Text("end"),
            Want::Text(")"),
            Want::Text("\n"),
            Want::Text(""),
        ])?;
        Ok(wants)
    }
}
