// Answering questions in the product and in the reference.
use crate::given::Given;
use crate::inquiry::Inquiry;
use crate::room::Room;
use field::Field;
use question::Question;
use report::{Call, Outcome, elements, same_elements, wanted};
use std::alloc::AllocError;

impl<'a, F: Field, Q: Question<F>> Inquiry<'a, F, Q> {
    /// Answers the question, with trays and papers of any content: what the reference gives.
    pub fn compare_answer(&mut self, room: Room) -> Result<Outcome<Given>, AllocError> {
        let source = &mut self.table.source;
        let mut plain_tray = source.any_elements(room.tray)?;
        let mut plain_paper = source.any_bytes(room.paper)?;
        let mut tray: Vec<F> = elements(source.heap, plain_tray.as_slice())?;
        let mut paper = plain_paper.as_slice().to_vec(source.heap)?;
        let game = source.game(self.sealed.host.at);
        let answer = self
            .sealed
            .host
            .answer(self.question, tray.as_mut_slice(), paper.as_mut_slice());
        let plain = wanted(game.answer(
            self.sealed.host.plain.as_slice(),
            self.ask,
            plain_tray.as_mut_slice(),
            plain_paper.as_mut_slice(),
        ));
        let report = &mut self.table.report;
        report.outcome(Call::Answer, "an answer", &answer, &plain);
        let same = same_elements(tray.as_slice(), plain_tray.as_slice());
        report.holds("the tray after an answer", same);
        report.holds("the paper after an answer", paper == plain_paper);
        Ok(plain.map(|answered| {
            plain_paper.truncate(answered.length as usize);
            Given {
                claim: answered.claim,
                sheet: plain_paper,
                tray: plain_tray,
            }
        }))
    }
}
