// Boxes that followed the game, at any secret point.
use crate::game::COUNTED;
use crate::verdict::Verdict;
use board::Bank;
use field::Field;
use fields::Mod65537;
use refusal::Refusal;
use season::Squares;
use verifier::Listening;

/// What the squares of the game's counts add up to.
pub const SQUARES: i64 = 14;

/// The point of this number modulo 65,537; 0 where there is none.
pub fn secret_point(number: u32) -> Mod65537 {
    Mod65537::element(number, 0).unwrap_or(Mod65537::zero())
}

// Judges a sheet for the squares at this point.
fn judged(point: u32, sheet: &str) -> Result<i64, Refusal> {
    let mut sums = [Mod65537::zero(); 8];
    let mut sums = Bank::new(&mut sums);
    let mut tray = [Mod65537::zero(); 3];
    let mut verifier = Listening::open(2, 8, secret_point(point), &mut sums)?;
    for m in COUNTED {
        verifier.note(&mut sums, m)?;
    }
    verifier
        .seal()
        .judge(&sums, &Squares, sheet.as_bytes(), &mut tray)
}

/// What a box at this point finds of a sheet for the squares.
pub fn verdict_at(point: u32, sheet: &str) -> Verdict {
    Verdict {
        found: judged(point, sheet),
        truth: SQUARES,
    }
}
