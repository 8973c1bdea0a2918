// What is done over a field that is chosen while the program runs.
ghost use Rattle.std.specs.Prelude.{ℕ, ⊤};

use field::Field;

/// What is to be done over a field that is chosen while the program runs.
pub trait FieldTask {
    /// What it comes to.
    type Out;

    // what it comes to over a field of characteristic p and degree e;
    // a task that leaves this out promises nothing
    ghost run_gives: { ℕ → ℕ → Self → Self.Out → Type 0 } = { λ p e task out. ⊤ };

    /// Does it over this field.
    fn run<F: Field>(self) -> Self::Out
        ensures { run_gives F.Field.model.characteristic F.Field.model.degree self result };
}
