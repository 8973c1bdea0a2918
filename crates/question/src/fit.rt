// Whether a question fits a grid.

/// Whether a question can be asked of a grid.
#[derive(Clone, Copy, Debug, PartialEq, Eq)]
pub enum Fit {
    /// It can be asked.
    Fits,
    /// It cannot.
    DoesNotFit,
}

/// A test's answer, as a question gives it.
impl From<bool> for Fit {
    ghost use Rattle.std.specs.Prelude.{◌≡◌};
    ghost use Rattle.question.specs.Question.{fits_if};

    ghost from_gives = { λ test fit. fit ≡ fits_if test };

    fn from(test: bool) -> Fit {
        if test { Fit::Fits } else { Fit::DoesNotFit }
    }
}
