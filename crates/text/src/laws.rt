// The laws of every form.
ghost use Rattle.text.specs.Forms.{ReadsForms, TellsBreaks, RefusesForms};

/// Reading under a form gives numbers exactly where the bytes state them.
pub fn reads_forms()
    ensures { ReadsForms }
{}

/// A refusal tells where the bytes first break the form, and that is told.
pub fn tells_breaks()
    ensures { TellsBreaks }
{}

/// Reading under a form refuses with nothing but a fault.
#[tactic(auto, using(crate::proofs::Forms::refuses_forms))]
pub fn refuses_forms()
    ensures { RefusesForms }
{}
