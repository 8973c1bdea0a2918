// What is to be done.
use crate::calls::Call;
use crate::field_name::FieldName;
use crate::mistake::Mistake;
use board::Grid;

/// What is to be done: a call, so many times, over a field on a board.
#[derive(Clone, Copy, PartialEq, Eq, Debug)]
pub struct Work {
    /// The field.
    pub field: FieldName,
    /// The call.
    pub call: Call,
    /// The board.
    pub grid: Grid,
    /// How often it is called.
    pub times: u32,
}

// The board of so many rows and columns.
fn board_of(rows: &str, columns: &str) -> Result<Grid, Mistake> {
    let rows = rows.parse::<u64>().map_err(|_| Mistake::Rows)?;
    let columns = columns.parse::<u64>().map_err(|_| Mistake::Columns)?;
    Grid::new(rows, columns).map_err(|_| Mistake::NoBoard)
}

impl Work {
    /// The work that the words behind the program's name ask for; none where there are none.
    pub fn of_words(words: &[String]) -> Result<Option<Work>, Mistake> {
        match words {
            [] => Ok(None),
            [field, call, rows, columns, times] => Ok(Some(Work {
                field: field.as_str().parse()?,
                call: call.as_str().parse()?,
                grid: board_of(rows.as_str(), columns.as_str())?,
                times: times.as_str().parse::<u32>().map_err(|_| Mistake::Times)?,
            })),
            [_, _, _, _, _, ..] => Err(Mistake::TooMany),
            _ => Err(Mistake::TooFew),
        }
    }
}

#[cfg(test)]
mod tests {
    use super::*;
    use fields::NamedField;
    use std::alloc::{AllocError, Global};
    use std::test::Fail;

    // The work that the words in a text ask for.
    fn work_of(heap: Global, text: &str) -> Result<Result<Option<Work>, Mistake>, AllocError> {
        let mut words = Vec::new(heap);
        for word in text.split_whitespace() {
            words.push(word.to_string(heap)?)?;
        }
        Ok(Work::of_words(words.as_slice()))
    }

    #[test]
    fn reads_work(rt: HostRuntime) -> Result<(), Fail> {
        let work = Work {
            field: FieldName(NamedField::Mersenne31x2),
            call: Call::BoxNote,
            grid: Grid::new(4, 16)?,
            times: 0,
        };
        let found = work_of(rt.alloc(), "m31x2 box-note 4 16 0")?;
        assert_eq!(rt; found, Ok(Some(work)));
        assert_eq!(rt; work_of(rt.alloc(), "")?, Ok(None));
        Ok(())
    }

    #[test]
    fn tells_mistakes(rt: HostRuntime) -> Result<(), Fail> {
        for (text, mistake) in [
            ("m31", Mistake::TooFew),
            ("m31 read 4 16 3 3", Mistake::TooMany),
            ("M31 read 4 16 3", Mistake::UnknownField),
            ("m31 note 4 16 3", Mistake::UnknownCall),
            ("m31 read four 16 3", Mistake::Rows),
            ("m31 read 4 -16 3", Mistake::Columns),
            ("m31 read 4 16 4294967296", Mistake::Times),
            ("m31 read 65 16 3", Mistake::NoBoard),
            ("m31 read 4 12 3", Mistake::NoBoard),
        ] {
            assert_eq!(rt; work_of(rt.alloc(), text)?, Err(mistake), "{text}");
        }
        Ok(())
    }

    #[test]
    fn lists_words(rt: HostRuntime) -> Result<(), Fail> {
        for (mistake, text) in [
            (
                Mistake::UnknownField,
                "FIELD is one of f65537, m31, f65537x2, m31x2",
            ),
            (
                Mistake::UnknownCall,
                "CALL is one of box-note, host-note, answer, judge, read, write",
            ),
        ] {
            let found = mistake.to_string(rt.alloc())?;
            assert_eq!(rt; found.as_str(), text);
        }
        Ok(())
    }
}
