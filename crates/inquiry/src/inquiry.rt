// A question asked of both sealed ends: its answer, and its sheet, honest, false and damaged, judged.
use crate::given::Given;
use crate::room::Room;
use crate::sealed::Sealed;
use board::Grid;
use field::Field;
use question::Question;
use reference::{Ask, PAPER, Sheet};
use report::Table;
use std::alloc::AllocError;

// More than any question's degree that suits a grid: trays are made for no degree above it.
const MANY: u64 = 300;

/// Where a question is asked, of whom, and the question itself, in the product's form and in the reference's.
#[derive(Drop)]
pub struct Inquiry<'a, F, Q> {
    /// Where it is asked.
    pub table: &'a mut Table,
    /// Of whom it is asked.
    pub sealed: &'a mut Sealed<F>,
    /// The question in the product's form.
    pub question: &'a Q,
    /// The question in the reference's form.
    pub ask: Ask,
}

impl<'a, F: Field, Q: Question<F>> Inquiry<'a, F, Q> {
    /// An inquiry of a question in both forms.
    pub fn new(table: &'a mut Table, sealed: &'a mut Sealed<F>, question: &'a Q, ask: Ask) -> Self {
        Inquiry {
            table,
            sealed,
            question,
            ask,
        }
    }

    // The grid that it is asked of.
    pub(crate) fn grid(&self) -> Grid {
        self.sealed.host.product.book().grid()
    }

    // Reads and judges a sheet, now and then with a tray that is one element too short.
    fn judge_sheet(&mut self, sheet: &[u8]) -> Result<(), AllocError> {
        let enough = self.ask.size(self.sealed.verifier.at).min(MANY);
        let dice = &mut self.table.source.dice;
        let room = if dice.one_in(20) {
            enough.saturating_sub(1)
        } else {
            enough.saturating_add(dice.below(3))
        };
        self.compare_reading(sheet, room)?;
        let _ = self.compare_judgement(sheet, room)?;
        Ok(())
    }

    // Judges sheets that are damaged, respaced or false, and writes the false one.
    fn judge_others(&mut self, honest: &Sheet, sheet: &[u8]) -> Result<(), AllocError> {
        let damaged = self.table.source.damaged(sheet)?;
        self.judge_sheet(damaged.as_slice())?;
        let respaced = self.table.source.respaced(sheet)?;
        self.judge_sheet(respaced.as_slice())?;
        let at = self.sealed.verifier.at;
        let other = self.table.source.falsified(at, honest)?;
        let game = self.table.source.game(at);
        let text = game.write_sheet(self.ask.tag(), other.claim, other.values.as_slice())?;
        self.judge_sheet(text.as_bytes())?;
        self.compare_writing(&other, PAPER as u64)
    }

    // The memory that an answer is lent: now and then more than it needs.
    fn any_room(&mut self) -> Room {
        let at = self.sealed.host.at;
        let values = self.ask.degree(at).min(MANY).saturating_add(1);
        let dice = &mut self.table.source.dice;
        Room {
            tray: values
                .saturating_add(at.columns)
                .saturating_add(dice.below(4)),
            paper: dice.below(9).saturating_add(PAPER as u64),
        }
    }

    /// Asks the question: what it says of itself, its answer, and its sheets, damaged, respaced and falsified so many
    /// times.
    pub fn inquire(&mut self, times: u64) -> Result<(), AllocError> {
        self.compare_meaning();
        let room = self.any_room();
        let Ok(given) = self.compare_answer(room)? else {
            return self.judge_sheet(b"(sheet");
        };
        let Given { claim, sheet, tray } = given;
        let sheet = sheet.as_slice();
        self.judge_sheet(sheet)?;
        let point = self.table.source.any_element();
        self.compare_rule(point)?;
        let mut values = tray;
        values.truncate(self.ask.size(self.sealed.host.at) as usize);
        let honest = Sheet { claim, values };
        for _ in 0..times {
            self.judge_others(&honest, sheet)?;
        }
        Ok(())
    }
}
