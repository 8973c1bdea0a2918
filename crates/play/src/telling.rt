// Telling moves to an end, one after the other, and writing down what it answers.
ghost use Rattle.std.specs.Prelude.{◌≡◌};
ghost use Rattle.board.specs.Banks.{cells_of};
ghost use Rattle.host.specs.Notes.{host_after};
ghost use Rattle.verifier.specs.Notes.{verifier_after};
ghost use Rattle.play.specs.States.{host_state, verifier_state};
ghost use Rattle.play.specs.Tellings.{moves_of, told_to_host, told_to_box};

use crate::told::Told;
use board::Bank;
use field::Field;

// Tells a host moves, refused ones too.
pub(crate) fn tell_host<F: Field>(
    host: &mut host::Listening<F>,
    bank: &mut Bank<'_, i32>,
    told: &mut [Told],
)
    ensures state { host_state host.new (cells_of bank.new)
        ≡ host_after F.Field.model.limit (host_state host.old (cells_of bank.old))
        (moves_of told.old) }
    ensures told { told.new
        ≡ told_to_host F.Field.model.limit (host_state host.old (cells_of bank.old)) told.old }
    ensures lender { bank.new.cells.ghost_name ≡ bank.old.cells.ghost_name }
{
    for one in told.iter_mut() {
        one.host = host.note(bank, one.moved);
    }
}

// Tells a box moves, refused ones too.
pub(crate) fn tell_verifier<F: Field>(
    verifier: &mut verifier::Listening<F>,
    bank: &mut Bank<'_, F>,
    told: &mut [Told],
)
    ensures state { verifier_state verifier.new (cells_of bank.new)
        ≡ verifier_after F.Field.model (verifier_state verifier.old (cells_of bank.old))
        (moves_of told.old) }
    ensures told { told.new
        ≡ told_to_box F.Field.model (verifier_state verifier.old (cells_of bank.old)) told.old }
    ensures lender { bank.new.cells.ghost_name ≡ bank.old.cells.ghost_name }
{
    for one in told.iter_mut() {
        one.verifier = verifier.note(bank, one.moved);
    }
}
