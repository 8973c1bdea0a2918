// What a trial comes to.
use refusal::Refusal;

/// A trial whose ends were opened, told its moves and sealed.
#[derive(Drop)]
pub struct Played<F> {
    /// The host: its book has the weight and the number of the moves that it accepted.
    pub host: host::Sealed<F>,
    /// The box: its book has the weight and the number of the moves that it accepted.
    pub verifier: verifier::Sealed<F>,
    /// The count that the box accepted, or the first refusal, the host's before the box's.
    pub found: Result<i64, Refusal>,
}
