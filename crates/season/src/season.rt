// This season's four questions in one type, for callers that hold a mixture.
ghost use Rattle.std.specs.Prelude.{◌≡◌};
ghost use Rattle.season.specs.Season.{SeasonLawful, TagsName, season_of, season_question};

use crate::cell::Cell;
use crate::goods::Goods;
use crate::range::Range;
use crate::squares::Squares;
use board::{Grid, Tag};
use field::Field;
use question::{Fit, Question};

/// One of this season's four questions. It answers as the one that it is.
#[derive(Clone, Copy, Debug, PartialEq, Eq)]
pub enum Season {
    /// The count at one cell.
    Cell(Cell),
    /// The count of one of the goods.
    Goods(Goods),
    /// The counts of a range of cells.
    Range(Range),
    /// The squares of all counts.
    Squares(Squares),
}

impl Season {
    /// The question with this tag: 1, i, 0 is cell i; 2, g, 0 the goods g; 3, a, b the range from a to b; 4, 0, 0 the squares. Nothing
    /// where the tag is none of these.
    pub fn of_tag(tag: Tag) -> Option<Season>
        ensures { result ≡ season_of tag }
    {
        match (tag.kind, tag.first, tag.second) {
            (1, index, 0) => Some(Season::Cell(Cell { index })),
            (2, kind, 0) => Some(Season::Goods(Goods { kind })),
            (3, first, last) => Some(Season::Range(Range { first, last })),
            (4, 0, 0) => Some(Season::Squares(Squares)),
            _ => None,
        }
    }
}

// What the question that is held answers.
macro_rules! held {
    ($season:expr, $question:ident => $answer:expr) => {
        match $season {
            Season::Cell($question) => $answer,
            Season::Goods($question) => $answer,
            Season::Range($question) => $answer,
            Season::Squares($question) => $answer,
        }
    };
}

/// Every method answers as that of the question that is held.
impl<F: Field> Question<F> for Season {
    ghost meaning = { λ q. season_question F.Field.model q };

    fn fit(&self, grid: Grid) -> Fit {
        held!(self, question => Question::<F>::fit(question, grid))
    }

    fn degree(&self, grid: Grid) -> u32 {
        held!(self, question => Question::<F>::degree(question, grid))
    }

    fn least(&self) -> i64 {
        held!(self, question => Question::<F>::least(question))
    }

    fn greatest(&self) -> i64 {
        held!(self, question => Question::<F>::greatest(question))
    }

    fn tag(&self) -> Tag {
        held!(self, question => Question::<F>::tag(question))
    }

    fn tally(&self, grid: Grid, counts: &[i32]) -> i64 {
        held!(self, question => Question::<F>::tally(question, grid, counts))
    }

    fn rule(&self, grid: Grid, point: F, columns: &[F]) -> F {
        held!(self, question => question.rule(grid, point, columns))
    }
}

/// Any of the four, whatever its numbers, is lawful over every lawful field.
pub fn season_is_lawful<F: Field>()
    ensures { SeasonLawful F.Field.model }
{}

/// Each of the four has a tag of its own, and a tag names the question that has it.
pub fn tags_name_questions<F: Field>()
    ensures { TagsName F.Field.model }
{}
