// The laws of writing.
ghost use Rattle.writer.specs.Laws.{FormsReadBack, ReadsBack, TextFits};

use field::Field;

/// Whatever the form, what is written of numbers of at most ten digits in their ranges is read
/// back.
#[tactic(auto, using(crate::proofs::Texts::forms_read_back))]
pub fn forms_read_back()
    ensures { FormsReadBack }
{}

/// A sheet that is written is read back, over every field.
#[tactic(auto, using(crate::proofs::Texts::reads_back))]
pub fn reads_back<F: Field>()
    ensures { ReadsBack F.Field.model }
{}

/// `ENOUGH_PAPER` bytes suffice for `MOST_VALUES` values, over every field.
pub fn text_fits<F: Field>()
    ensures { TextFits F.Field.model }
{}
