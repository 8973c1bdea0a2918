// Reading and judging sheets in the product and in the reference.
use crate::inquiry::Inquiry;
use field::Field;
use protocol::terms_of;
use question::Question;
use report::{Call, Outcome, elements, found, same_elements, wanted};
use sheet::read_sheet;
use std::alloc::AllocError;

impl<'a, F: Field, Q: Question<F>> Inquiry<'a, F, Q> {
    /// Reads a sheet into trays of any content.
    pub fn compare_reading(&mut self, sheet: &[u8], room: u64) -> Result<(), AllocError> {
        let source = &mut self.table.source;
        let mut plain_tray = source.any_elements(room)?;
        let mut tray: Vec<F> = elements(source.heap, plain_tray.as_slice())?;
        let game = source.game(self.sealed.verifier.at);
        let terms = terms_of(self.question, self.sealed.verifier.product.book().grid());
        let read = found(read_sheet(sheet, &terms, tray.as_mut_slice()));
        let plain = wanted(game.read_into(self.ask, sheet, plain_tray.as_mut_slice()));
        let report = &mut self.table.report;
        report.outcome(Call::Read, "a reading", &read, &plain);
        let same = same_elements(tray.as_slice(), plain_tray.as_slice());
        report.holds("the tray after a reading", same);
        Ok(())
    }

    /// Judges a sheet, with trays of any content: what the product says.
    pub fn compare_judgement(
        &mut self,
        sheet: &[u8],
        room: u64,
    ) -> Result<Outcome<i64>, AllocError> {
        let source = &mut self.table.source;
        let mut plain_tray = source.any_elements(room)?;
        let mut tray: Vec<F> = elements(source.heap, plain_tray.as_slice())?;
        let game = source.game(self.sealed.verifier.at);
        let judged = self
            .sealed
            .verifier
            .judge(self.question, sheet, tray.as_mut_slice());
        let plain = wanted(game.judge(
            self.sealed.verifier.point,
            self.sealed.verifier.plain.as_slice(),
            self.ask,
            sheet,
            plain_tray.as_mut_slice(),
        ));
        let report = &mut self.table.report;
        report.outcome(Call::Judge, "a judgement", &judged, &plain);
        let same = same_elements(tray.as_slice(), plain_tray.as_slice());
        report.holds("the tray after a judgement", same);
        Ok(judged)
    }
}
