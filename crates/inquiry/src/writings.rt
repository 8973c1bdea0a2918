// Writing sheets in the product and in the reference.
use crate::inquiry::Inquiry;
use field::Field;
use protocol::terms_of;
use question::Question;
use reference::Sheet;
use report::{Call, elements, found, wanted};
use std::alloc::AllocError;
use writer::write_sheet;

impl<'a, F: Field, Q: Question<F>> Inquiry<'a, F, Q> {
    /// Writes a claim and values onto papers of any content.
    pub fn compare_writing(&mut self, sheet: &Sheet, room: u64) -> Result<(), AllocError> {
        let terms = terms_of(self.question, self.grid());
        let source = &mut self.table.source;
        let mut plain_paper = source.any_bytes(room)?;
        let mut paper = plain_paper.as_slice().to_vec(source.heap)?;
        let values: Vec<F> = elements(source.heap, sheet.values.as_slice())?;
        let game = source.game(self.sealed.host.at);
        let written = write_sheet(paper.as_mut_slice(), &terms, sheet.claim, values.as_slice());
        let written = found(written).map(|length| length as u64);
        let laid = wanted(game.lay_sheet(
            self.ask.tag(),
            sheet.claim,
            sheet.values.as_slice(),
            plain_paper.as_mut_slice(),
        ));
        let report = &mut self.table.report;
        report.outcome(Call::Write, "a writing", &written, &laid);
        report.holds("the paper after a writing", paper == plain_paper);
        Ok(())
    }
}
