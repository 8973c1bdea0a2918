// Answering a question at a sealed host.
use crate::answered::Answered;
use crate::ask::Ask;
use crate::element::Element;
use crate::front::put_front;
use crate::game::Game;
use crate::numbers::PAPER;
use crate::refusal::Refusal;
use crate::stop::Stop;

// The absolute counts of the board, added.
fn absolute_sum(board: &[i64]) -> u64 {
    board.iter().fold(0u64, |all, count| all.saturating_add(count.unsigned_abs()))
}

impl Game {
    // The counts of the board, if a bank has them all, and no other refusal of an answer is met.
    fn test<'a>(
        self,
        bank: &'a [i64],
        ask: Ask,
        tray: u64,
        paper: usize,
    ) -> Result<&'a [i64], Refusal> {
        let board = bank
            .get(0..self.at.cells() as usize)
            .ok_or(Refusal::BankShort)?;
        if absolute_sum(board) > self.at.limit {
            return Err(Refusal::CountOutside);
        }
        if !ask.suits(self.at) {
            return Err(Refusal::QuestionUnfit);
        }
        if tray < ask.size(self.at).saturating_add(self.at.columns) {
            return Err(Refusal::TrayShort);
        }
        if paper < PAPER {
            return Err(Refusal::PaperShort);
        }
        Ok(board)
    }

    /// Answers a question: the honest values, which are the rule on the columns at 0 to the degree, and the columns at
    /// the degree go into the tray, the sheet onto the paper. Refused with 12, 13, 20, 21, 22, and nothing changes.
    pub fn answer(
        self,
        bank: &[i64],
        ask: Ask,
        tray: &mut [Element],
        paper: &mut [u8],
    ) -> Result<Answered, Stop> {
        let board = self.test(bank, ask, tray.len() as u64, paper.len())?;
        let mut values = Vec::new(self.heap);
        let mut columns = Vec::new(self.heap);
        for j in 0..ask.size(self.at) {
            let point = Element::whole(j);
            columns = self.columns_at(board, point)?;
            values.push(self.rule(ask, point, columns.as_slice())?)?;
        }
        let claim = ask.tally(self.at, board);
        let length = self.lay_sheet(ask.tag(), claim, values.as_slice(), paper)?;
        values.extend_from_slice(columns.as_slice())?;
        put_front(tray, values.as_slice());
        Ok(Answered { claim, length })
    }
}
