// Sheets with other spaces and zeros.
use crate::damage::stops;
use crate::dice::Dice;
use std::alloc::{AllocError, Global};

// The text, with a space more before some bytes that end a run, and a zero more before some runs' first digits.
pub(crate) fn respaced(heap: Global, dice: &mut Dice, text: &[u8]) -> Result<Vec<u8>, AllocError> {
    let mut all = Vec::new(heap);
    let mut before = b' ';
    for byte in text {
        if stops(*byte) && dice.one_in(6) {
            all.push(b' ')?;
        }
        if byte.is_ascii_digit() && stops(before) && dice.one_in(6) {
            all.push(b'0')?;
        }
        all.push(*byte)?;
        before = *byte;
    }
    Ok(all)
}
