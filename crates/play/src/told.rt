// A move of a trial, with what both ends answered to it.
use board::Move;
use refusal::Refusal;

/// A move of a trial, with what both ends answered to it. A trial writes the answers, whatever stood there.
#[derive(Clone, Copy, Debug, PartialEq, Eq)]
pub struct Told {
    /// The move.
    pub moved: Move,
    /// What the host answered.
    pub host: Result<(), Refusal>,
    /// What the box answered.
    pub verifier: Result<(), Refusal>,
}
