// Numbers that look random and are the same in every run.
ghost use Rattle.std.specs.Prelude.{◌≡◌, ◌<◌};

use reference::{Arithmetic, Element};

/// Dice that fall alike in every run, from a seed.
#[derive(Drop)]
pub struct Dice {
    state: u64,
}

impl Dice {
    /// Dice of a seed; even seeds fall as the odd ones behind them.
    pub fn new(seed: u64) -> Dice {
        Dice { state: seed | 1 }
    }

    /// The next number, of 56 bits: three shifts, each mixed in.
    pub fn next(&mut self) -> u64 {
        let mut x = self.state;
        x ^= x << 13;
        x ^= x >> 7;
        x ^= x << 17;
        self.state = x;
        x >> 8
    }

    /// A number below n; 0 where n is 0.
    pub fn below(&mut self, n: u64) -> u64
        ensures within { 0 < n → result < n }
        ensures none { n ≡ 0 → result ≡ 0 }
    {
        let next = self.next();
        if n == 0 { 0 } else { next % n }
    }

    /// A number from the least to the greatest.
    pub fn between(&mut self, least: i64, greatest: i64) -> i64 {
        let span = greatest.wrapping_sub(least).wrapping_add(1).unsigned_abs();
        least.wrapping_add(i64::try_from(self.below(span)).unwrap_or(0))
    }

    /// Whether something that happens once in n times happens.
    pub fn one_in(&mut self, n: u64) -> bool {
        self.below(n) == 0
    }

    /// One of several; the other one where there are none.
    pub fn one_of<T: Copy>(&mut self, several: &[T], other: T) -> T {
        let at = self.below(several.len() as u64) as usize;
        several.get(at).copied().unwrap_or(other)
    }

    /// Any element of a field.
    pub fn element(&mut self, field: Arithmetic) -> Element {
        let low = self.below(field.p);
        let high = if field.e == 1 { 0 } else { self.below(field.p) };
        Element { low, high }
    }
}
