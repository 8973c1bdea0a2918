// Where a space stands between the items of a line, and the numbers that are stated there.
ghost use Rattle.std.specs.Prelude.{◌≡◌, ◌&&◌, ℤ, pos, slice_index_or};
ghost use Rattle.text.specs.Items.{stated_count_of};
ghost use Rattle.text.specs.Marks.{item_mark};
ghost use Rattle.text.specs.Meanings.{item_of};
ghost use Rattle.writer.specs.Texts.{spaced_before, spaced_after};

use text::Item;

// Whether a space may follow: not inside a bracket, nor at the start of a line.
#[inline(always)]
pub(crate) fn spaced_after(item: Item) -> bool
    ensures { (z : ℤ) → result ≡ spaced_after (item_mark (item_of item) z) }
{
    match item {
        Item::Open | Item::LineEnd | Item::End => false,
        Item::Close | Item::Word(_) | Item::Given(..) | Item::Stated(..) => true,
    }
}

// Whether a space may stand before: not inside a bracket, nor at the end of a line.
#[inline(always)]
pub(crate) fn spaced_before(item: Item) -> bool
    ensures { (z : ℤ) → result ≡ spaced_before (item_mark (item_of item) z) }
{
    match item {
        Item::Close | Item::LineEnd | Item::End => false,
        Item::Open | Item::Word(_) | Item::Given(..) | Item::Stated(..) => true,
    }
}

// Whether a space stands before an item, behind one that allows it or not.
#[inline(always)]
pub(crate) fn spaced_between(space: bool, item: Item) -> bool
    ensures { (z : ℤ) → result ≡ (space && spaced_before (item_mark (item_of item) z)) }
{
    space && spaced_before(item)
}

// How many numbers are stated where an item stands.
#[inline(always)]
pub(crate) fn stated_count_of(item: Item) -> usize
    ensures { result ≡ stated_count_of (item_of item) }
{
    match item {
        Item::Stated(..) => 1,
        _ => 0,
    }
}

// The first number, or 0 where there is none.
#[inline(always)]
pub(crate) fn first_or_zero(numbers: &[i64]) -> i64
    ensures { result ≡ slice_index_or numbers.now 0 (pos 0) }
{
    numbers.first().copied().unwrap_or(0)
}
