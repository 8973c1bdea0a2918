// How long the items of a line are when they are written.
ghost use Rattle.std.specs.Prelude.{◌≡◌, ◌≤◌, length, decimal};
ghost use Rattle.std.specs.Fmt.{signed_decimal};
ghost use Rattle.text.specs.Marks.{item_mark};
ghost use Rattle.text.specs.Meanings.{item_of};
ghost use Rattle.writer.specs.Texts.{spaced_bytes};

use crate::spaces::spaced_before;
use text::Item;

// How many digits a natural number has in decimal.
#[tactic(auto, using(std::proofs::lemmas::Fmt::decimal_digit, crate::proofs::Papers::front_fits))]
fn decimal_length(n: u64) -> usize
    ensures value { result ≡ length (decimal n) }
    ensures small { result ≤ 20 }
{
    if n < 10 {
        1
    } else {
        decimal_length(n / 10) + 1
    }
}

// How many bytes a whole number has in decimal.
fn signed_length(z: i64) -> usize
    ensures value { result ≡ length (signed_decimal z) }
    ensures small { result ≤ 21 }
{
    usize::from(z < 0) + decimal_length(z.unsigned_abs())
}

// How many bytes an item has, after a space where both neighbours allow it.
pub(crate) fn spaced_length(space: bool, item: Item, number: i64) -> usize
    ensures { result ≡ length (spaced_bytes space (item_mark (item_of item) number)) }
{
    let gap = usize::from(space && spaced_before(item));
    let bytes = match item {
        Item::Open | Item::Close | Item::LineEnd => 1,
        Item::Word(keyword) => keyword.text().len(),
        Item::Given(n, _) => decimal_length(u64::from(n)),
        Item::Stated(..) => signed_length(number),
        Item::End => 0,
    };
    gap + bytes
}
