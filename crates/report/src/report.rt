// What was compared, what came of it, and every difference.
ghost use Rattle.std.specs.Prelude.{◌≡◌, ◌≢◌, ◌<◌, ◌≤◌, true, false};
ghost use Rattle.report.specs.Outcomes.{numbered, shown_number, same_outcome};

use crate::call::Call;
use crate::counts::Counts;
use crate::difference::Difference;
use crate::outcome::{Outcome, number_of, shown};
use std::alloc::Global;
use std::marker::Model;

// Not more differences than these are kept.
const KEPT: usize = 20;

/// What was compared in which games, how often each call came to what, and the differences.
#[derive(Drop)]
pub struct Report {
    game: u64,
    compared: u64,
    differing: u64,
    kept: Vec<Difference>,
    // Call by call. They are in an array, so that counting an outcome cannot run out of memory.
    outcomes: [Counts; 8],
}

/// To its callers a report is the number of its differences.
impl Model for Report {
    ghost use Rattle.std.specs.Prelude.{ℕ};

    ghost Value = { ℕ };

    ghost view = { λ report. report.differing };
}

impl Report {
    /// A report of no game.
    pub fn new(heap: Global) -> Report
        ensures { result ≡ 0 }
    {
        Report {
            game: 0,
            compared: 0,
            differing: 0,
            kept: Vec::new(heap),
            outcomes: [Counts::new(); 8],
        }
    }

    /// From here on the next game is played.
    pub fn next_game(&mut self)
        ensures { self.new ≡ self.old }
    {
        self.game = self.game.saturating_add(1);
    }

    /// Holds what was found to what is wanted. No difference is lost: their number is then above zero, and never falls.
    pub fn same(&mut self, what: &'static str, found: u64, wanted: u64)
        ensures seen { found ≢ wanted → 0 < self.new }
        ensures kept { self.old ≤ self.new }
        ensures none { found ≡ wanted → self.new ≡ self.old }
    {
        self.compared = self.compared.saturating_add(1);
        if found != wanted {
            self.differing = self.differing.saturating_add(1);
            if self.kept.len() < KEPT {
                // A difference that finds no memory is counted all the same.
                let _ = self.kept.push(Difference {
                    game: self.game,
                    what,
                    found,
                    wanted,
                });
            }
        }
    }

    /// Holds a test to be passed.
    pub fn holds(&mut self, what: &'static str, test: bool)
        ensures seen { test ≡ false → 0 < self.new }
        ensures kept { self.old ≤ self.new }
        ensures none { test ≡ true → self.new ≡ self.old }
    {
        self.same(what, u64::from(test), 1);
    }

    /// Holds an outcome to one that was granted, which a difference shows as 0 (no refusal has this number), or to a
    /// refusal's number.
    pub fn number<T>(&mut self, what: &'static str, found: &Outcome<T>, wanted: Result<(), u64>)
        ensures seen { shown_number (numbered found.now) ≢ shown_number wanted → 0 < self.new }
        ensures kept { self.old ≤ self.new }
    {
        self.same(what, shown(number_of(found)), shown(wanted));
    }

    /// Counts what a call of the product came to, and holds it to what the reference says.
    pub fn outcome<T: PartialEq>(
        &mut self,
        call: Call,
        what: &'static str,
        found: &Outcome<T>,
        wanted: &Outcome<T>,
    )
        ensures seen { same_outcome T.eq found.now wanted.now ≡ false → 0 < self.new }
        ensures numbers { shown_number (numbered found.now) ≢ shown_number (numbered wanted.now) → 0 < self.new }
        ensures kept { self.old ≤ self.new }
    {
        let number = number_of(found);
        self.outcomes[call as usize].add(number);
        if shown(number) == shown(number_of(wanted)) {
            self.holds(what, found == wanted);
        } else {
            self.number(what, found, number_of(wanted));
        }
    }

    /// How many games there were.
    pub fn games(&self) -> u64 {
        self.game
    }

    /// How many comparisons there were.
    pub fn compared(&self) -> u64 {
        self.compared
    }

    /// How many differences there were.
    pub fn differing(&self) -> u64
        ensures { result ≡ self.now }
    {
        self.differing
    }

    /// The first differences.
    pub fn differences(&self) -> &[Difference] {
        self.kept.as_slice()
    }

    /// How often a call was granted.
    pub fn granted(&self, call: Call) -> u64 {
        self.outcomes[call as usize].granted()
    }

    /// How often a call came to a refusal's number.
    pub fn refused(&self, call: Call, number: u64) -> u64 {
        self.outcomes[call as usize].refused(number)
    }
}
