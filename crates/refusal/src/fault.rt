// What is wrong with a text.
ghost use Rattle.std.specs.Prelude.{◌≡◌};
ghost use Rattle.refusal.specs.Refusals.{fault_number};

use std::error::Error;
use std::fmt;

/// What is wrong with a sheet, by its number in the table of refusals.
#[derive(Clone, Copy, PartialEq, Eq, Debug)]
pub enum Fault {
    /// A run that is neither a word nor a number.
    Malformed = 30,
    /// A token, or the sheet's end, where the grammar has another.
    Unexpected = 31,
    /// The characteristic or the degree is not the field's.
    Field = 40,
    /// The rows or the columns are not the grid's.
    Grid = 41,
    /// A number of the tag is not the question's.
    Tag = 42,
    /// The claim is outside the question's limits.
    Claim = 43,
    /// A value line is not the next one.
    Index = 44,
    /// A part of a value is no part of an element.
    Part = 45,
}

impl Fault {
    /// Its number, 30, 31 or 40 to 45.
    pub fn number(self) -> u8
        ensures { result ≡ fault_number self }
    {
        self as u8
    }
}

/// Says what is wrong, in words.
impl fmt::Display for Fault {
    ghost use Rattle.std.specs.Prelude.{Some};
    ghost use Rattle.refusal.specs.Words.{fault_words};

    ghost output = { λ fault. Some (fault_words fault) };

    fn fmt<W: fmt::Write>(&self, f: &mut fmt::Formatter<W>) -> fmt::Result {
        f.write_str(match self {
            Fault::Malformed =>
                "a run that is neither a word of 1 to 8 letters nor a number of 1 to 10 digits",
            Fault::Unexpected => "a token, or the sheet's end, where the grammar has another",
            Fault::Field => "the characteristic or the degree is not the field's",
            Fault::Grid => "the rows or the columns are not the grid's",
            Fault::Tag => "a number of the tag is not the question's",
            Fault::Claim => "the claim is outside the question's least to greatest claim",
            Fault::Index => "the value line is not the next one",
            Fault::Part =>
                "a part of a value is not from 0 to p - 1, or a high part is not 0 where e is 1",
        })
    }
}

impl Error for Fault {}
