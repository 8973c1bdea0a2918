// Moves in words, with what the ends answer to them.
use crate::refused::Refused;
use play::Told;
use refusal::Refusal;
use std::fmt;

/// A move in words, with what host and box answer to it: once where they say the same.
#[derive(Clone, Copy)]
pub struct ToldWords(pub Told);

// One answer to a move.
fn write_answer<W: fmt::Write>(
    f: &mut fmt::Formatter<W>,
    answer: Result<(), Refusal>,
) -> fmt::Result {
    match answer {
        Ok(()) => f.write_str("accepted"),
        Err(why) => write!(f, "{}", Refused(why)),
    }
}

impl fmt::Display for ToldWords {
    fn fmt<W: fmt::Write>(&self, f: &mut fmt::Formatter<W>) -> fmt::Result {
        let Told {
            moved,
            host,
            verifier,
        } = self.0;
        let amount = moved.amount;
        let cell = moved.cell;
        write!(f, "a move of {amount} at cell {cell}: ")?;
        if host == verifier {
            return write_answer(f, host);
        }
        f.write_str("host and box differ: host ")?;
        write_answer(f, host)?;
        f.write_str(", box ")?;
        write_answer(f, verifier)
    }
}
