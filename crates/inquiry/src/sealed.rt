// Both ends of a game once they are sealed.
use crate::sealed_host::SealedHost;
use crate::sealed_verifier::SealedVerifier;
use field::Field;

/// Both ends sealed, each of the product and of the reference.
#[derive(Drop)]
pub struct Sealed<F> {
    /// The hosts.
    pub host: SealedHost<F>,
    /// The boxes.
    pub verifier: SealedVerifier<F>,
}

impl<F: Field> Sealed<F> {
    /// Takes the last cell from every bank.
    pub fn drop_last(&mut self) {
        self.host.counts.pop();
        self.host.plain.pop();
        self.verifier.sums.pop();
        self.verifier.plain.pop();
    }
}
