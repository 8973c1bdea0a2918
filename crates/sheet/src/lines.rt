// The lines of a sheet: the items of each.
ghost use Rattle.std.specs.Prelude.{◌≡◌, map};
ghost use Rattle.text.specs.Meanings.{item_of};
ghost use Rattle.text.specs.Forms.{whole_form};
ghost use Rattle.sheet.specs.Lines.{part_below, sheet_line, claim_line, value_line, end_line};

use crate::terms::Terms;
use field::Field;
use refusal::Fault;
use text::{Item, Keyword};

// A part below a limit.
fn part_below(limit: u32) -> Item
    ensures { item_of result ≡ part_below limit }
{
    Item::Stated(0, i64::from(limit) - 1, Fault::Part)
}

/// The first line: the field and the grid.
pub fn sheet_line<F: Field>(terms: &Terms) -> [Item; 11]
    ensures { map item_of result ≡ sheet_line F.Field.model terms.now }
{
    [
        Item::Open,
        Item::Word(Keyword::Sheet),
        Item::Given(F::CHARACTERISTIC, Fault::Field),
        Item::Given(F::DEGREE, Fault::Field),
        Item::Open,
        Item::Word(Keyword::Grid),
        Item::Given(terms.rows, Fault::Grid),
        Item::Given(terms.columns, Fault::Grid),
        Item::Close,
        Item::Close,
        Item::LineEnd,
    ]
}

/// The claim's line: the question's tag, and the claim.
pub fn claim_line(terms: &Terms) -> [Item; 10]
    ensures { map item_of result ≡ claim_line terms.now }
{
    [
        Item::Open,
        Item::Word(Keyword::Claim),
        Item::Open,
        Item::Given(terms.tag.kind, Fault::Tag),
        Item::Given(terms.tag.first, Fault::Tag),
        Item::Given(terms.tag.second, Fault::Tag),
        Item::Close,
        Item::Stated(terms.least, terms.greatest, Fault::Claim),
        Item::Close,
        Item::LineEnd,
    ]
}

/// Value line j, from 0: the parts of a value.
pub fn value_line<F: Field>(j: u32) -> [Item; 9]
    ensures { map item_of result ≡ value_line F.Field.model j }
{
    [
        Item::Open,
        Item::Word(Keyword::At),
        Item::Given(j, Fault::Index),
        Item::Open,
        part_below(F::CHARACTERISTIC),
        part_below(F::high_limit()),
        Item::Close,
        Item::Close,
        Item::LineEnd,
    ]
}

/// The last line, and nothing but spaces behind it.
pub fn end_line() -> [Item; 5]
    ensures { map item_of result ≡ whole_form end_line }
{
    [
        Item::Open,
        Item::Word(Keyword::End),
        Item::Close,
        Item::LineEnd,
        Item::End,
    ]
}
