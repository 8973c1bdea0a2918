// A trial, from the opening of both ends to the judged sheet.
ghost use Rattle.std.specs.Prelude.{◌≡◌, Ok, IfOk, OnErr};
ghost use Rattle.promise.specs.Claims.{true_count};
ghost use Rattle.promise.specs.Promise.{Promised};
ghost use Rattle.board.specs.Answers.{granted};
ghost use Rattle.board.specs.Banks.{cells_of};
ghost use Rattle.play.specs.Memories.{contents_of, SameLenders};
ghost use Rattle.play.specs.Tellings.{moves_of};
ghost use Rattle.play.specs.Trials.{exchanged, trial, ends_opened, InOrder};
ghost use Rattle.play.specs.Outcomes.{answer_in, ToldEnds, FollowsLedger};

use crate::memory::Memory;
use crate::played::Played;
use crate::telling::{tell_host, tell_verifier};
use crate::told::Told;
use board::Bank;
use field::Field;
use question::Question;
use refusal::Refusal;

// A sealed host answers a question, and a sealed box judges the sheet.
fn judge_answer<F: Field, Q: Question<F>>(
    host: &host::Sealed<F>,
    counts: &Bank<'_, i32>,
    verifier: &verifier::Sealed<F>,
    sums: &Bank<'_, F>,
    question: &Q,
    tray: &mut [F],
    paper: &mut [u8],
) -> Result<i64, Refusal>
    ensures { record {
      answer = result;
      memory = record {
        counts = cells_of counts.now;
        sums = cells_of sums.now;
        tray = tray.new;
        paper = paper.new;
      };
    }
        ≡ exchanged F.Field.model host.now verifier.now (Q.Question.meaning question.now)
        (record {
          counts = cells_of counts.now;
          sums = cells_of sums.now;
          tray = tray.old;
          paper = paper.old;
        }) }
{
    let (_, length) = host.answer(counts, question, tray, paper)?;
    verifier.judge(sums, question, &paper[..length], tray)
}

/// A sealed host answers a question, and a sealed box judges the sheet: the count that the box accepts, or the first refusal, the host's
/// before the box's. Both banks are as they were.
pub fn exchange<F: Field, Q: Question<F>>(
    host: &host::Sealed<F>,
    verifier: &verifier::Sealed<F>,
    question: &Q,
    memory: &mut Memory<'_, F>,
) -> Result<i64, Refusal>
    ensures exchanged { record { answer = result; memory = contents_of memory.new }
        ≡ exchanged F.Field.model host.now verifier.now (Q.Question.meaning question.now)
        (contents_of memory.old) }
    ensures lenders { SameLenders memory.old memory.new }
{
    let counts = Bank::new(memory.counts);
    let sums = Bank::new(memory.sums);
    judge_answer(
        host,
        &counts,
        verifier,
        &sums,
        question,
        memory.tray,
        memory.paper,
    )
}

// A trial, of which the contract says just what it comes to and leaves, in terms of the two ends.
fn open_and_exchange<F: Field, Q: Question<F>>(
    rows: u64,
    columns: u64,
    point: F,
    told: &mut [Told],
    question: &Q,
    memory: &mut Memory<'_, F>,
) -> Result<Played<F>, Refusal>
    ensures opened { granted result
        ≡ ends_opened F.Field.model rows columns (contents_of memory.old) }
    ensures trial { record { answer = answer_in result; memory = contents_of memory.new }
        ≡ trial F.Field.model rows columns point (moves_of told.old)
        (Q.Question.meaning question.now) (contents_of memory.old) }
    ensures ends { IfOk result (ToldEnds F.Field.model rows columns point
        (contents_of memory.old) told.old told.new) }
    ensures untold { OnErr result (told.new ≡ told.old) }
    ensures lenders { SameLenders memory.old memory.new }
{
    let mut counts = Bank::new(memory.counts);
    let mut sums = Bank::new(memory.sums);
    let mut host = host::Listening::<F>::open(rows, columns, &mut counts)?;
    let mut verifier = verifier::Listening::open(rows, columns, point, &mut sums)?;
    tell_host(&mut host, &mut counts, told);
    tell_verifier(&mut verifier, &mut sums, told);
    let host = host.seal();
    let verifier = verifier.seal();
    let found = exchange(&host, &verifier, question, memory);
    Ok(Played {
        host,
        verifier,
        found,
    })
}

/// Opens a host and a box on the same grid, tells both the moves and writes down what they answer, seals them, has the host answer the
/// question and the box judge the sheet. It is refused as the host's open is, or else as the box's is, and then no move is told; the
/// refusals of the exchange are in the trial. The contract is the whole promise that the two ends make over every run, what this trial
/// comes to and leaves in the memory that it was lent, that both ends answer the moves and stand as the ledger does, and that a trial in
/// order ends with the true count.
pub fn play_trial<F: Field, Q: Question<F>>(
    rows: u64,
    columns: u64,
    point: F,
    told: &mut [Told],
    question: &Q,
    memory: &mut Memory<'_, F>,
) -> Result<Played<F>, Refusal>
    ensures promise { Promised F.Field.model }
    ensures opened { granted result
        ≡ ends_opened F.Field.model rows columns (contents_of memory.old) }
    ensures trial { record { answer = answer_in result; memory = contents_of memory.new }
        ≡ trial F.Field.model rows columns point (moves_of told.old)
        (Q.Question.meaning question.now) (contents_of memory.old) }
    ensures ledger { IfOk result (FollowsLedger F.Field.model rows columns point
        told.old told.new) }
    ensures untold { OnErr result (told.new ≡ told.old) }
    ensures honest { InOrder F.Field.model rows columns point (moves_of told.old)
        (Q.Question.meaning question.now) (contents_of memory.old)
        → answer_in result
        ≡ Ok (true_count F.Field.model rows columns (moves_of told.old)
        (Q.Question.meaning question.now)) }
    ensures lenders { SameLenders memory.old memory.new }
{
    open_and_exchange(rows, columns, point, told, question, memory)
}
