//! One board, worked out: what the definitions give on it, and what the promise comes to there;
//! and that the contract of a trial can be met.
#![tactic(auto)]

ghost use Rattle.worked.specs.Answers.{AnswerCases};
ghost use Rattle.worked.specs.Fields.{FieldCases};
ghost use Rattle.worked.specs.Games.{GameCases};
ghost use Rattle.worked.specs.Judgements.{JudgementCases};
ghost use Rattle.worked.specs.Listening.{ListeningCases};
ghost use Rattle.worked.specs.Memories.{MemoryCases};
ghost use Rattle.worked.specs.Orders.{OrdersMet};
ghost use Rattle.worked.specs.Questions.{QuestionCases};
ghost use Rattle.worked.specs.Refusals.{RefusalCases};
ghost use Rattle.worked.specs.Sheets.{SheetCases};
ghost use Rattle.worked.specs.Tokens.{TokenCases};
ghost use Rattle.worked.specs.Trials.{TrialCases};
ghost use Rattle.worked.specs.WorkedPromise.{BoundReached, WorkedPromise};

use field::Field;

/// The numbers of refusals, and the lines and places that they tell.
pub fn refusal_cases()
    ensures { RefusalCases }
{}

/// Fields and polynomials: residues, their quadratic extension, and polynomials through given values.
pub fn field_cases()
    ensures { FieldCases }
{}

/// Tokens: which runs are words and numbers, where a run ends, where a reader goes on, and what a token comes to where an item is next.
pub fn token_cases()
    ensures { TokenCases }
{}

/// Grids and moves: which grids are allowed, how a ledger answers moves, and what they come to.
pub fn game_cases()
    ensures { GameCases }
{}

/// Questions: what each of the four says of the worked board, which tags name one, and which degrees the ends take.
pub fn question_cases()
    ensures { QuestionCases }
{}

/// Sheets: what is read of the honest sheet and of damaged ones, with lines and places; and how sheets are written.
pub fn sheet_cases()
    ensures { SheetCases }
{}

/// Opens and notes at both ends: the answers, the order of the checks, and what is left in the end and in its bank.
pub fn listening_cases()
    ensures { ListeningCases }
{}

/// Answers of the host: the claims, the memory that is wanted, the weight of the counts, and the order of the checks.
pub fn answer_cases()
    ensures { AnswerCases }
{}

/// Judgements of the box: what it accepts and where, what it finds of other sheets, and the order of the checks.
pub fn judgement_cases()
    ensures { JudgementCases }
{}

/// Trays and papers: what each call leaves in them, whether it refuses or not.
pub fn memory_cases()
    ensures { MemoryCases }
{}

/// Trials: both ends from open to judgement, what comes out, and what the memory holds then.
pub fn trial_cases()
    ensures { TrialCases }
{}

/// The promise's bound is reached: a sheet with a false claim and the bound 2 is accepted at two points.
#[tactic(auto, using(crate::proofs::WorkedPromise::bound_reached))]
pub fn bound_is_reached()
    ensures { BoundReached }
{}

/// What the promise comes to on the board: the sheet's two points are all that it has, two false sheets together are accepted at no
/// more than four points, and an honest host's count is accepted at every point.
#[tactic(auto, using(crate::proofs::WorkedPromise::worked_promise))]
pub fn promise_on_the_worked_board()
    ensures { WorkedPromise }
{}

/// On every allowed grid, at every point and for all moves there is a trial of the squares in order, with just the memory that is wanted.
pub fn trials_in_order_exist<F: Field>()
    ensures { OrdersMet F.Field.model }
{}
