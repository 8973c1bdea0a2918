// The lines of the form.
ghost use Rattle.std.specs.Prelude.{◌≡◌, map};
ghost use Rattle.text.specs.Forms.{whole_form};
ghost use Rattle.text.specs.Meanings.{item_of};
ghost use Rattle.form_tests.specs.Toys.{grid_line, at_line};

use refusal::Fault;
use text::{Item, Keyword};

// The first line: a number that is given.
pub(crate) fn grid_line(n: u32) -> [Item; 5]
    ensures { map item_of result ≡ grid_line n }
{
    [
        Item::Open,
        Item::Word(Keyword::Grid),
        Item::Given(n, Fault::Grid),
        Item::Close,
        Item::LineEnd,
    ]
}

// The second line: two numbers that the text states, and nothing but spaces behind it.
pub(crate) fn at_line() -> [Item; 7]
    ensures { map item_of result ≡ whole_form at_line }
{
    [
        Item::Open,
        Item::Word(Keyword::At),
        Item::Stated(0, 9, Fault::Part),
        Item::Stated(-5, 5, Fault::Claim),
        Item::Close,
        Item::LineEnd,
        Item::End,
    ]
}
