// Judging a sheet at a sealed box.
use crate::ask::Ask;
use crate::element::Element;
use crate::front::put_front;
use crate::game::Game;
use crate::interpolation::value_at;
use crate::refusal::Refusal;
use crate::sheet::Sheet;
use crate::stop::Stop;

impl Game {
    // Reads a sheet, and tests the sum of its first values, one for each row, and its value at the point.
    fn weigh(
        self,
        point: Element,
        columns: &[Element],
        ask: Ask,
        sheet: &[u8],
    ) -> Result<Sheet, Stop> {
        let read = self.read_sheet(ask, sheet)?;
        let values = read.values.as_slice();
        let rows = values.get(0..self.at.rows as usize).unwrap_or(values);
        if self.field.total(rows) != self.field.image(read.claim) {
            return Err(Stop::from(Refusal::SumWrong));
        }
        if value_at(self.field, values, point) != self.rule(ask, point, columns)? {
            return Err(Stop::from(Refusal::PointWrong));
        }
        Ok(read)
    }

    /// The accepted claim, with the values in the tray. Refused with 12, 20, 21, and nothing changes; then with the
    /// sheet's first fault, 50, 51, and zeros stand in the tray's front.
    pub fn judge(
        self,
        point: Element,
        bank: &[Element],
        ask: Ask,
        sheet: &[u8],
        tray: &mut [Element],
    ) -> Result<i64, Stop> {
        let columns = bank
            .get(0..self.at.columns as usize)
            .ok_or(Refusal::BankShort)?;
        if !ask.suits(self.at) {
            return Err(Stop::from(Refusal::QuestionUnfit));
        }
        self.clear_tray(ask, tray)?;
        let read = self.weigh(point, columns, ask, sheet)?;
        put_front(tray, read.values.as_slice());
        Ok(read.claim)
    }
}
