// A sheet cut into pieces: brackets, line ends, runs, and the end of the sheet.
use crate::position::Position;
use std::alloc::{AllocError, Global};

// A piece: where it begins, and its bytes; none at the end of the sheet.
#[derive(Clone, Copy)]
pub(crate) struct Piece<'a> {
    pub(crate) at: Position,
    pub(crate) text: &'a [u8],
}

// Whether a byte belongs to a run.
fn is_run(byte: u8) -> bool {
    !matches!(byte, b' ' | b'(' | b')' | b'\n')
}

// The value of one to ten digits.
fn digits_value(digits: &[u8]) -> Option<i64> {
    if !matches!(digits.len(), 1..=10) || !digits.iter().all(|byte| byte.is_ascii_digit()) {
        return None;
    }
    Some(
        digits.iter().fold(
            0i64,
            |value, digit| value
                .wrapping_mul(10)
                .wrapping_add(i64::from(digit.wrapping_sub(b'0'))),
        ),
    )
}

impl Piece<'_> {
    // The position behind it.
    fn behind(&self) -> Position {
        let place = self.at.place.wrapping_add(self.text.len() as u64);
        match self.text {
            [b'\n'] => Position {
                line: self.at.line.wrapping_add(1),
                place,
            },
            _ => Position { place, ..self.at },
        }
    }

    // Whether it is a word: one to eight letters.
    fn is_word(&self) -> bool {
        matches!(self.text.len(), 1..=8) && self.text.iter().all(|byte| byte.is_ascii_lowercase())
    }

    // The value of a number: digits, or a minus sign and digits.
    pub(crate) fn number(&self) -> Option<i64> {
        match self.text {
            [b'-', digits @ ..] => digits_value(digits).map(|value| value.wrapping_neg()),
            digits => digits_value(digits),
        }
    }

    // Whether it is a run that is neither a word nor a number.
    pub(crate) fn is_malformed(&self) -> bool {
        match self.text {
            [] | [b'('] | [b')'] | [b'\n'] => false,
            _ => !self.is_word() && self.number().is_none(),
        }
    }
}

// The pieces of a sheet, with its end as the last. Spaces only part them.
pub(crate) fn pieces_of<'a>(heap: Global, sheet: &'a [u8]) -> Result<Vec<Piece<'a>>, AllocError> {
    let mut pieces = Vec::new(heap);
    let mut at = Position::START;
    for text in sheet.chunk_by(|a, b| is_run(*a) && is_run(*b)) {
        let piece = Piece { at, text };
        if !matches!(text, [b' ']) {
            pieces.push(piece)?;
        }
        at = piece.behind();
    }
    pieces.push(Piece { at, text: &[] })?;
    Ok(pieces)
}
