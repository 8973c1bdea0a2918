// What the laws of every form come to here.
ghost use Rattle.form_tests.specs.Toys.{ToysReadBack};

/// What is written is read back.
#[tactic(auto, using(crate::proofs::Toys::toys_read_back))]
pub fn toys_read_back()
    ensures { ToysReadBack }
{}
