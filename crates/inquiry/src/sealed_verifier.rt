// A sealed box of the product and how the reference's stands.
use board::Bank;
use field::Field;
use question::Question;
use reference::{Element, Standing};
use report::{Outcome, found};

/// A sealed box of the product, how the reference's stands, their secret point, and the bank of each.
#[derive(Drop)]
pub struct SealedVerifier<F> {
    /// The product's.
    pub product: verifier::Sealed<F>,
    /// How the reference's stands.
    pub at: Standing,
    /// The secret point.
    pub point: Element,
    /// The product's bank.
    pub sums: Vec<F>,
    /// The reference's bank.
    pub plain: Vec<Element>,
}

impl<F: Field> SealedVerifier<F> {
    /// The judgement of the product's.
    pub fn judge<Q: Question<F>>(
        &mut self,
        question: &Q,
        sheet: &[u8],
        tray: &mut [F],
    ) -> Outcome<i64> {
        let bank = Bank::new(self.sums.as_mut_slice());
        found(self.product.judge(&bank, question, sheet, tray))
    }
}
