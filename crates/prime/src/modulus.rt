// What makes P the modulus of a field: numbers that belong to it, its table of inverses,
// and the facts about them.
ghost use Rattle.std.specs.Prelude.{ℕ, ◌<◌, IsTrue};
ghost use Rattle.prime.specs.Modulus.{IsModulus};
ghost use Rattle.prime.specs.Tables.{inverses};

/// A prime P from 65,537 to 2,147,483,647, with what its field needs:
/// the residues modulo such a P are a `Field` and a `BaseField`.
pub trait Modulus<const P: u32> {
    ghost positive: { 0 < P };

    ghost LIMIT: { ℕ };

    /// The limit W of the weight of a board's moves: at least 1, and W × W is below P.
    const LIMIT: u32;

    ghost NON_SQUARE: { ℕ };

    /// A number below P that no number times itself leaves.
    const NON_SQUARE: u32;

    /// The inverses of 1 to 252 modulo P, a constant table:
    /// the n-th is below P, and n times it leaves 1.
    fn inverses() -> &'static [u32; 252]
        ensures { IsTrue (inverses P 1 result.now) };

    ghost lawful: { IsModulus P LIMIT NON_SQUARE };
}
