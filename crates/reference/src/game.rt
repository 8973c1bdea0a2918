// Where a call is made.
use crate::arithmetic::Arithmetic;
use crate::standing::Standing;
use std::alloc::Global;

/// A game: the memory for what is computed, the field, and how the game stands.
#[derive(Clone, Copy)]
pub struct Game {
    /// Where vectors are made.
    pub heap: Global,
    /// The field in plain numbers.
    pub field: Arithmetic,
    /// How the game stands.
    pub at: Standing,
}
