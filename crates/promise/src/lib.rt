//! What a host and a box promise together, over every lawful field and all lawful questions.
//! Each contract is one theorem.
#![tactic(auto)]

ghost use Rattle.promise.specs.Adequacy.{EveryListRuns, SealedRuns, GrantedAnywhere, TestsFalseClaims, NoneOnOneRow};
ghost use Rattle.promise.specs.Counts.{ValuesAgainstCounts};
ghost use Rattle.promise.specs.Promise.{Promised};

use field::Field;

/// Honest sheets are accepted at every point, false claims at few, and both ends keep to the ledger.
pub fn the_whole_promise<F: Field>()
    ensures { Promised F.Field.model }
{}

/// Honest values pass at every point; values that add up to a false claim are unlike them, and such values pass at no more points than the degree.
pub fn values_against_counts<F: Field>()
    ensures { ValuesAgainstCounts F.Field.model }
{}

/// Every list of requests of the form has exactly one run, and no other list has any.
pub fn every_list_has_one_run<F: Field>()
    ensures { EveryListRuns F.Field.model }
{}

/// On every allowed grid, for all moves and at every point, both ends have a run that ends sealed.
#[tactic(auto, using(crate::proofs::Adequacy::sealed_runs))]
pub fn sealed_runs_exist<F: Field>()
    ensures { SealedRuns F.Field.model }
{}

/// Whether a box is opened does not depend on its point.
#[tactic(auto, using(crate::proofs::Adequacy::granted_anywhere))]
pub fn grant_independent_of_point<F: Field>()
    ensures { GrantedAnywhere F.Field.model }
{}

/// The sheets that the bound counts are those with a false claim.
#[tactic(auto, using(crate::proofs::Tests::tests_false_claims))]
pub fn false_claims_are_tested<F: Field>()
    ensures { TestsFalseClaims F.Field.model }
{}

/// On one row no false claim is accepted at any point.
#[tactic(auto, using(crate::proofs::OneRow::none_on_one_row))]
pub fn no_false_claim_on_one_row<F: Field>()
    ensures { NoneOnOneRow F.Field.model }
{}
