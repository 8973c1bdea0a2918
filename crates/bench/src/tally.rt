// What the results of calls come to.
use field::Field;
use refusal::Refusal;

/// A checksum of every result, and how many calls were refused.
#[derive(Drop)]
pub struct Tally {
    /// The checksum.
    pub checksum: u64,
    /// How many calls were refused.
    pub refused: u64,
}

// One of several, another one at each turn; none where there are none.
fn one_of<T: Copy>(several: &[T], turn: u32) -> Option<T> {
    let place = (turn as usize).checked_rem(several.len())?;
    several.get(place).copied()
}

impl Tally {
    /// The tally of no call.
    pub fn new() -> Tally {
        Tally {
            checksum: 0,
            refused: 0,
        }
    }

    /// Mixes in a number. What was mixed in before counts on.
    pub fn number(&mut self, n: u64) {
        let mixed = (self.checksum ^ n).wrapping_mul(0x9e37_79b9_7f4a_7c15);
        self.checksum = mixed ^ (mixed >> 29);
    }

    /// Mixes in both parts of an element.
    pub fn element<F: Field>(&mut self, x: F) {
        self.number(u64::from(x.low()));
        self.number(u64::from(x.high()));
    }

    /// Counts a refused call, and mixes in the refusal's number.
    pub fn refusal(&mut self, why: Refusal) {
        self.refused = self.refused.saturating_add(1);
        self.number(u64::from(why.number()));
    }

    /// One of the values that a call left, another one at each turn.
    pub fn value<F: Field>(&mut self, values: &[F], turn: u32) {
        if let Some(value) = one_of(values, turn) {
            self.element(value);
        }
    }

    /// All values that the last call left.
    pub fn values<F: Field>(&mut self, values: &[F]) {
        for value in values {
            self.element(*value);
        }
    }

    /// All bytes of the sheet that the last call left.
    pub fn bytes(&mut self, sheet: &[u8]) {
        for byte in sheet {
            self.number(u64::from(*byte));
        }
    }

    /// The length of a sheet, and one of its bytes, another one at each turn.
    pub fn sheet(&mut self, sheet: &[u8], turn: u32) {
        self.number(sheet.len() as u64);
        if let Some(byte) = one_of(sheet, turn) {
            self.number(u64::from(byte));
        }
    }

    /// A claim that was read or accepted, and one of the values that it came with.
    pub fn claim<F: Field>(&mut self, found: Result<i64, Refusal>, values: &[F], turn: u32) {
        match found {
            Ok(claim) => {
                self.number(claim.cast_unsigned());
                self.value(values, turn);
            }
            Err(why) => self.refusal(why),
        }
    }
}
