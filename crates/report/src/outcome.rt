// What a call came to, alike for the product and for the reference.
ghost use Rattle.std.specs.Prelude.{◌≡◌};
ghost use Rattle.report.specs.Outcomes.{numbered, shown_number};

use crate::refused::Refused;
use reference::Stop;

/// What a call gave, or why it refused.
pub type Outcome<T> = Result<T, Refused>;

/// What a call of the product came to.
pub fn found<T>(answer: Result<T, refusal::Refusal>) -> Outcome<T> {
    answer.map_err(Refused::from)
}

/// What a call of the reference came to. Where it had no memory, that has a number that no refusal has.
pub fn wanted<T>(answer: Result<T, Stop>) -> Outcome<T> {
    answer.map_err(Refused::from)
}

/// The outcome without what was given.
pub fn bare<T>(outcome: &Outcome<T>) -> Outcome<()> {
    outcome.as_ref().map(|_| ()).map_err(|refused| *refused)
}

/// The outcome without what was given, its refusal by the number alone.
pub fn number_of<T>(outcome: &Outcome<T>) -> Result<(), u64>
    ensures { result ≡ numbered outcome.now }
{
    outcome
        .as_ref()
        .map(|_| ())
        .map_err(|refused| refused.number)
}

// What a difference shows of it: 0 where the call was granted (no refusal has this number), or the refusal's number.
pub(crate) fn shown(came: Result<(), u64>) -> u64
    ensures { result ≡ shown_number came }
{
    came.err().unwrap_or(0)
}
