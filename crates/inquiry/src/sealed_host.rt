// A sealed host of the product and how the reference's stands.
use board::Bank;
use field::Field;
use question::Question;
use reference::{Answered, Standing};
use report::{Outcome, found};

/// A sealed host of the product, how the reference's stands, and the bank of each.
#[derive(Drop)]
pub struct SealedHost<F> {
    /// The product's.
    pub product: host::Sealed<F>,
    /// How the reference's stands.
    pub at: Standing,
    /// The product's bank.
    pub counts: Vec<i32>,
    /// The reference's bank.
    pub plain: Vec<i64>,
}

impl<F: Field> SealedHost<F> {
    /// The answer of the product's.
    pub fn answer<Q: Question<F>>(
        &mut self,
        question: &Q,
        tray: &mut [F],
        paper: &mut [u8],
    ) -> Outcome<Answered> {
        let bank = Bank::new(self.counts.as_mut_slice());
        found(self.product.answer(&bank, question, tray, paper)).map(|(claim, length)| Answered {
            claim,
            length: length as u64,
        })
    }
}
