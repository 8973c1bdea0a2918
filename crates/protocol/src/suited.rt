// Questions that suit a grid.
ghost use Rattle.std.specs.Prelude.{◌≡◌, suc, ◌≤◌, IfOk};
ghost use Rattle.field.specs.declared.limits.TheConstants.{INVERSES};
ghost use Rattle.board.specs.Answers.{granted};
ghost use Rattle.question.specs.declared.fit.Fit.{Fit};
ghost use Rattle.protocol.specs.Asking.{suit_answer, terms_of};

use crate::terms::terms_of;
use board::Grid;
use field::{Field, INVERSES};
use question::{Fit, Question};
use refusal::Refusal;
use sheet::Terms;
use std::marker::PhantomData;

/// A question with a grid that it fits, and its degree there, from rows − 1 to 252.
#[derive(Drop)]
pub struct Suited<'a, F: Field, Q: Question<F>> {
    /// The question.
    pub question: &'a Q,
    /// The grid.
    pub grid: Grid,
    /// The degree of the question on the grid's rows: a sheet has one value more.
    pub degree: u32,
    /// The field, of which nothing is kept.
    pub field: PhantomData<F>,
    ghost fits: { (Q.Question.meaning question.now).fits grid.rows grid.columns ≡ Fit.Fits },
    ghost stated: { degree ≡ (Q.Question.meaning question.now).degree grid.rows },
    ghost degree_least: { grid.rows ≤ suc degree },
    ghost degree_most: { degree ≤ INVERSES },
}

impl<'a, F: Field, Q: Question<F>> Suited<'a, F, Q> {
    /// The question with the grid. It is refused with 20 where it does not fit, or its degree is not from rows − 1 to 252.
    pub fn new(question: &'a Q, grid: Grid) -> Result<Suited<'a, F, Q>, Refusal>
        ensures answer { granted result
            ≡ suit_answer (Q.Question.meaning question.now) grid.rows grid.columns }
        ensures question { IfOk result (λ asked. asked.question.now ≡ question.now) }
        ensures grid { IfOk result (λ asked. asked.grid ≡ grid) }
    {
        let degree = question.degree(grid);
        match question.fit(grid) {
            Fit::Fits if grid.rows <= degree.saturating_add(1) && degree <= INVERSES => {
                Ok(Suited {
                    question,
                    grid,
                    degree,
                    field: PhantomData,
                })
            }
            _ => Err(Refusal::QuestionUnfit),
        }
    }

    /// What a sheet for the question has to agree with.
    pub fn terms(&self) -> Terms
        ensures { result
            ≡ terms_of (Q.Question.meaning self.now.question.now)
            self.now.grid.rows self.now.grid.columns }
    {
        terms_of(self.question, self.grid)
    }
}

/// The degree of a question on a grid that it suits. It is refused with 20 where it does not fit, or its degree is not from rows − 1
/// to 252.
pub fn suited_degree<F: Field, Q: Question<F>>(question: &Q, grid: Grid) -> Result<u32, Refusal>
    ensures answer { granted result
        ≡ suit_answer (Q.Question.meaning question.now) grid.rows grid.columns }
    ensures degree { IfOk result (λ d. d ≡ (Q.Question.meaning question.now).degree grid.rows) }
{
    Ok(Suited::<F, Q>::new(question, grid)?.degree)
}
