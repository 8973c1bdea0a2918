// The rules that a call can break.
use crate::fault::Fault;
use crate::position::Position;

/// Why a call refuses, with the number that the table gives it.
#[derive(Clone, Copy, PartialEq, Eq, Debug)]
pub enum Refusal {
    /// 1: the move's cell.
    CellOutside,
    /// 2: the move's amount.
    AmountOutside,
    /// 3: the weight with the move's.
    TooHeavy,
    /// 10: the grid.
    GridOutside,
    /// 12: the bank's length.
    BankShort,
    /// 13: a count, or all of them.
    CountOutside,
    /// 20: the question on this grid.
    QuestionUnfit,
    /// 21: the tray's length.
    TrayShort,
    /// 22: the paper's length.
    PaperShort,
    /// 30 to 45: a fault of the sheet, and where it lies.
    Sheet(Fault, Position),
    /// 50: the sum of the first values.
    SumWrong,
    /// 51: the value at the point.
    PointWrong,
}

impl Refusal {
    /// Its number in the table of refusals.
    pub fn number(self) -> u64 {
        match self {
            Refusal::CellOutside => 1,
            Refusal::AmountOutside => 2,
            Refusal::TooHeavy => 3,
            Refusal::GridOutside => 10,
            Refusal::BankShort => 12,
            Refusal::CountOutside => 13,
            Refusal::QuestionUnfit => 20,
            Refusal::TrayShort => 21,
            Refusal::PaperShort => 22,
            Refusal::Sheet(fault, _) => fault.number(),
            Refusal::SumWrong => 50,
            Refusal::PointWrong => 51,
        }
    }

    /// Where the sheet's fault lies, if it is one.
    pub fn position(self) -> Option<Position> {
        match self {
            Refusal::Sheet(_, position) => Some(position),
            _ => None,
        }
    }
}
