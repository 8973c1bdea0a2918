// What is wrong with the words that the program is run with.
use crate::calls::Call;
use crate::field_name::FieldName;
use std::error::Error;
use std::fmt;

/// What is wrong with the words that the program is run with.
#[derive(Clone, Copy, PartialEq, Eq, Debug)]
pub enum Mistake {
    /// There are fewer than five, and not none.
    TooFew,
    /// There are more than five.
    TooMany,
    /// The first names no field.
    UnknownField,
    /// The second names no call.
    UnknownCall,
    /// The third is no number, or too large a one.
    Rows,
    /// The fourth is no number, or too large a one.
    Columns,
    /// The fifth is no number, or too large a one.
    Times,
    /// No board has so many rows and columns.
    NoBoard,
}

const USAGE: &str = "bench FIELD CALL ROWS COLUMNS TIMES";

// Words, with a comma between two.
fn list<W: fmt::Write, T: fmt::Display>(
    f: &mut fmt::Formatter<W>,
    what: &str,
    words: &[T],
) -> fmt::Result {
    write!(f, "{what} is one of")?;
    for (place, word) in words.iter().enumerate() {
        let comma = if place == 0 { "" } else { "," };
        write!(f, "{comma} {word}")?;
    }
    Ok(())
}

impl fmt::Display for Mistake {
    fn fmt<W: fmt::Write>(&self, f: &mut fmt::Formatter<W>) -> fmt::Result {
        match self {
            Mistake::TooFew => write!(f, "too few words: {USAGE}"),
            Mistake::TooMany => write!(f, "too many words: {USAGE}"),
            Mistake::UnknownField => list(f, "FIELD", &FieldName::ALL),
            Mistake::UnknownCall => list(f, "CALL", &Call::ALL),
            Mistake::Rows => f.write_str("ROWS is a number"),
            Mistake::Columns => f.write_str("COLUMNS is a number"),
            Mistake::Times => f.write_str("TIMES is a number from 0 to 4294967295"),
            Mistake::NoBoard => f.write_str(
                "a board has 1 to 64 rows and 8 to 1024 columns, a multiple of 8",
            ),
        }
    }
}

impl Error for Mistake {}
