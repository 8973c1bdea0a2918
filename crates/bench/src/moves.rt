// Moves that look random and are the same in every run.
ghost use Rattle.std.specs.Prelude.{◌≡◌, ◌*◌, ◌<◌, ◌≤◌, ℕ, IsSomeAnd, unsigned_abs};
ghost use Rattle.std.specs.Iterator.{endless};

use board::{Grid, Move};
use generated::Dice;

// The seed of the dice.
const SEED: u64 = 20_240_917;

/// The greatest amount, from 1 to 256, at which so many moves are not too heavy; 1 where there is none.
pub fn heaviest(limit: u32, moves: u32) -> u32
    ensures least { 1 ≤ result }
    ensures most { result ≤ 256 }
    ensures light { moves ≤ limit → moves * result ≤ limit }
    ensures greatest { (a : ℕ) → a ≤ 256 → moves * a ≤ limit → a ≤ result }
{
    limit.checked_div(moves).unwrap_or(256).clamp(1, 256)
}

/// Moves of one amount, given or taken, anywhere on a board. There is always a next one.
#[derive(Drop)]
pub struct Moves {
    dice: Dice,
    /// How many cells the board has.
    pub cells: u64,
    /// The amount.
    pub amount: u32,
    ghost some: { 0 < cells },
}

impl Moves {
    /// Moves of this amount on this board.
    pub fn new(grid: Grid, amount: u32) -> Moves
        ensures cells { result.cells ≡ grid.rows * grid.columns }
        ensures amount { result.amount ≡ amount }
    {
        Moves {
            dice: Dice::new(SEED),
            cells: u64::from(grid.cells()),
            amount,
        }
    }
}

impl Iterator for Moves {
    type Item = Move;

    ghost next_gives = { λ old r new.
        IsSomeAnd r (λ m. (m.cell < old.cells) × (unsigned_abs m.amount ≡ old.amount))
        × (new.cells ≡ old.cells) × (new.amount ≡ old.amount) };

    ghost remaining = { λ _. endless };

    fn next(&mut self) -> Option<Move> {
        let drawn = self.dice.next();
        let size = i64::from(self.amount);
        Some(Move {
            cell: drawn / 2 % self.cells,
            amount: if drawn % 2 == 0 { size } else { -size },
        })
    }
}
