// What the grammar has at a place.
use crate::fault::Fault;
use crate::limits::Limits;
use crate::piece::Piece;

// What a piece has to be.
#[derive(Clone, Copy)]
pub(crate) enum Want {
    // A bracket, a line end or a word; no text at all at the end of the sheet.
    Text(&'static str),
    // This number; another has this fault.
    Number(u64, Fault),
    // A number within limits, kept; another has this fault.
    Kept(Limits, Fault),
}

// A wanted number as pieces have it: −1 where it is beyond all that are signed.
fn signed(wanted: u64) -> i64 {
    i64::try_from(wanted).unwrap_or(-1)
}

impl Want {
    // The number to be kept of a piece where this is wanted, if there is one; or what is wrong with the piece.
    pub(crate) fn kept(self, piece: &Piece<'_>) -> Result<Option<i64>, Fault> {
        if piece.is_malformed() {
            return Err(Fault::Malformed);
        }
        match (self, piece.number()) {
            (Want::Text(wanted), _) if piece.text == wanted.as_bytes() => Ok(None),
            (Want::Number(wanted, _), Some(n)) if signed(wanted) == n => Ok(None),
            (Want::Kept(limits, _), Some(n)) if limits.allow(n) => Ok(Some(n)),
            (Want::Number(_, fault) | Want::Kept(_, fault), Some(_)) => Err(fault),
            _ => Err(Fault::Unexpected),
        }
    }
}
