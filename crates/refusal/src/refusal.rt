// Why a call refuses.
ghost use Rattle.std.specs.Prelude.{◌≡◌};
ghost use Rattle.refusal.specs.Refusals.{number_of, position_of};

use crate::fault::Fault;
use std::error::Error;
use std::fmt;

/// Why a call refuses. Every refusal of the product is one of these, and each has a number.
#[derive(Clone, Copy, PartialEq, Eq, Debug)]
pub enum Refusal {
    /// 1: the move's cell is not on the board.
    CellOutside,
    /// 2: the move's amount is 0 or outside −256 to 256.
    AmountOutside,
    /// 3: the move would take the weight past the field's limit.
    TooHeavy,
    /// 10: there are not 1 to 64 rows, or the columns are no multiple of 8 from 8 to 1,024.
    GridOutside,
    /// 12: the bank has too few cells.
    BankShort,
    /// 13: a count, or the counts together, are beyond the field's limit.
    CountOutside,
    /// 20: the question does not suit the grid.
    QuestionUnfit,
    /// 21: the tray has too few elements.
    TrayShort,
    /// 22: the paper is too short.
    PaperShort,
    /// 30 to 45: the sheet has a fault, at a line (from 1) and a byte place (from 0).
    Sheet {
        /// What is wrong.
        fault: Fault,
        /// The line, from 1.
        line: usize,
        /// How many bytes stand before it.
        place: usize,
    },
    /// 50: the first values do not add up to the claim.
    SumWrong,
    /// 51: the values fail at the secret point.
    PointWrong,
}

impl Refusal {
    /// Its number in the table of refusals, 1 to 51.
    pub fn number(self) -> u8
        ensures { result ≡ number_of self }
    {
        match self {
            Refusal::CellOutside => 1,
            Refusal::AmountOutside => 2,
            Refusal::TooHeavy => 3,
            Refusal::GridOutside => 10,
            Refusal::BankShort => 12,
            Refusal::CountOutside => 13,
            Refusal::QuestionUnfit => 20,
            Refusal::TrayShort => 21,
            Refusal::PaperShort => 22,
            Refusal::Sheet { fault, .. } => fault.number(),
            Refusal::SumWrong => 50,
            Refusal::PointWrong => 51,
        }
    }

    /// The line (from 1) and the byte place (from 0) of a sheet's fault; nothing for other refusals.
    pub fn position(self) -> Option<(usize, usize)>
        ensures { result ≡ position_of self }
    {
        match self {
            Refusal::Sheet { line, place, .. } => Some((line, place)),
            _ => None,
        }
    }
}

/// Says why, in words.
impl fmt::Display for Refusal {
    ghost use Rattle.std.specs.Prelude.{Some};
    ghost use Rattle.refusal.specs.Words.{refusal_words};

    ghost output = { λ refusal. Some (refusal_words refusal) };

    fn fmt<W: fmt::Write>(&self, f: &mut fmt::Formatter<W>) -> fmt::Result {
        match self {
            Refusal::CellOutside => f.write_str("the move's cell is not on the board"),
            Refusal::AmountOutside => f.write_str("the move's amount is 0 or outside -256 to 256"),
            Refusal::TooHeavy => f.write_str("the move takes the weight past the field's limit"),
            Refusal::GridOutside => f.write_str(
                "the rows are not 1 to 64, or the columns no multiple of 8 from 8 to 1,024",
            ),
            Refusal::BankShort => f.write_str("the bank has too few cells"),
            Refusal::CountOutside => f.write_str(
                "a count, or the absolute counts together, are beyond the field's limit",
            ),
            Refusal::QuestionUnfit => f.write_str(
                "the question does not fit the grid, or its degree is not from h - 1 to 252",
            ),
            Refusal::TrayShort => f.write_str("the tray has too few elements"),
            Refusal::PaperShort => f.write_str("the paper is too short"),
            Refusal::Sheet { fault, line, place } => {
                write!(f, "line {line}, byte {place} of the sheet: {fault}")
            }
            Refusal::SumWrong => f.write_str("the first values do not add up to the claim"),
            Refusal::PointWrong => f.write_str("the values fail at the secret point"),
        }
    }
}

impl Error for Refusal {}
