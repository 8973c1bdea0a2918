// What is said of an end.
use report::Call;

/// The calls of an end, and what a report says is compared of it.
#[derive(Clone, Copy)]
pub struct Names {
    /// The call that opens it.
    pub open: Call,
    /// The call that tells it a move.
    pub note: Call,
    /// What opening came to.
    pub opening: &'static str,
    /// What opening left in the bank.
    pub opened_bank: &'static str,
    /// What a move came to.
    pub telling: &'static str,
    /// The weight of its moves.
    pub weight: &'static str,
    /// The number of its moves.
    pub number: &'static str,
    /// What moves left in the bank.
    pub bank: &'static str,
}
