// A pen over paper of the caller's: it puts bytes where it is, for which there is room, and goes on
// behind them.
ghost use Rattle.std.specs.Prelude.{◌≡◌, ℕ, ◌+◌, ◌<◌, ◌≤◌, ◌↔◌, List, [], ◌∷◌, map, length, drop, decimal, IsTrue, OnOk, OnErr, if◌then◌else◌};
ghost use Rattle.std.specs.Fmt.{signed_decimal};
ghost use Rattle.text.specs.Items.{stated_count};
ghost use Rattle.text.specs.Marks.{item_mark, marks};
ghost use Rattle.text.specs.Meanings.{item_of};
ghost use Rattle.writer.specs.Texts.{mark_bytes, spaced_bytes, written_on, form_text};

use crate::measure::spaced_length;
use crate::put::{put_bytes, put_decimal, put_signed};
use crate::spaces::{first_or_zero, spaced_after, spaced_between, stated_count_of};
use refusal::Refusal;
use text::Item;

/// A pen over paper of the caller's: the whole paper, and the place behind what it wrote.
#[derive(Drop)]
pub struct Pen<'a> {
    paper: &'a mut [u8],
    at: usize,
}

impl<'a> Pen<'a> {
    ghost use Rattle.writer.specs.Papers.{paper_of, place_of, Lays, Room, Puts, put_answer};

    /// A pen at the start of the paper.
    pub fn new(paper: &'a mut [u8]) -> Pen<'a>
        ensures paper { paper_of result ≡ paper.old }
        ensures start { place_of result ≡ 0 }
        ensures lender { result.paper.ghost_name ≡ paper.entry.ghost_name }
    {
        Pen { paper, at: 0 }
    }

    /// How many bytes stand before the pen.
    pub fn place(&self) -> usize
        ensures { result ≡ place_of self.now }
    {
        self.at
    }

    #[inline(always)]
    fn byte(&mut self, byte: u8)
        requires { Room (byte ∷ []) self.old }
        ensures { Puts (byte ∷ []) self.old self.new }
    {
        self.paper[self.at] = byte;
        self.at += 1;
    }

    fn bytes(&mut self, bytes: &[u8])
        requires { Room bytes.now self.old }
        ensures { Puts bytes.now self.old self.new }
    {
        self.at = put_bytes(self.paper, self.at, bytes);
    }

    // A natural number in decimal.
    fn decimal(&mut self, n: u64)
        requires { Room (decimal n) self.old }
        ensures { Puts (decimal n) self.old self.new }
    {
        self.at = put_decimal(self.paper, self.at, n);
    }

    // A whole number in decimal.
    fn signed(&mut self, z: i64)
        requires { Room (signed_decimal z) self.old }
        ensures { Puts (signed_decimal z) self.old self.new }
    {
        self.at = put_signed(self.paper, self.at, z);
    }

    // An item, with the number that may be stated there.
    #[inline(always)]
    fn item(&mut self, item: Item, number: i64)
        requires { Room (mark_bytes (item_mark (item_of item) number)) self.old }
        ensures { Puts (mark_bytes (item_mark (item_of item) number)) self.old self.new }
    {
        match item {
            Item::Open => self.byte(b'('),
            Item::Close => self.byte(b')'),
            Item::LineEnd => self.byte(b'\n'),
            Item::Word(keyword) => self.bytes(keyword.text()),
            Item::Given(n, _) => self.decimal(u64::from(n)),
            Item::Stated(..) => self.signed(number),
            Item::End => self.bytes(b""),
        }
    }

    // A space, or nothing.
    #[inline(always)]
    fn gap(&mut self, space: bool)
        requires { Room (if space then 32 ∷ [] else []) self.old }
        ensures { Puts (if space then 32 ∷ [] else []) self.old self.new }
    {
        if space {
            self.byte(b' ');
        }
    }

    // An item, after a space where both neighbours allow it.
    #[inline(always)]
    fn spaced(&mut self, space: bool, item: Item, number: i64)
        requires { Room (spaced_bytes space (item_mark (item_of item) number)) self.old }
        ensures { Puts (spaced_bytes space (item_mark (item_of item) number)) self.old self.new }
    {
        self.gap(spaced_between(space, item));
        self.item(item, number);
    }

    // Item i of a line, if there is one, with the first of the numbers that are left: whether a space
    // may follow it, and the numbers that are left behind it. There is room for it and all behind it.
    #[inline(always)]
    fn put_item<'n>(
        &mut self,
        space: bool,
        items: &[Item],
        i: usize,
        numbers: &'n [i64],
    ) -> (bool, &'n [i64])
        requires numbers { stated_count (map item_of (drop i items.now)) ≤ length numbers.now }
        requires room { Room
            (written_on space (marks (map item_of (drop i items.now)) numbers.now)) self.old }
        ensures numbers { stated_count (map item_of (drop (i + 1) items.now))
            ≤ length result.1.now }
        ensures room { Room
            (written_on result.0 (marks (map item_of (drop (i + 1) items.now)) result.1.now))
            self.new }
        ensures line { (paper : List ℕ) (end : ℕ)
            → Lays (written_on result.0 (marks (map item_of (drop (i + 1) items.now)) result.1.now))
            (paper_of self.new) (place_of self.new) paper end
            → Lays (written_on space (marks (map item_of (drop i items.now)) numbers.now))
            (paper_of self.old) (place_of self.old) paper end }
        ensures lender { self.new.paper.ghost_name ≡ self.old.paper.ghost_name }
    {
        if i >= items.len() {
            return (space, numbers);
        }
        let item = items[i];
        self.spaced(space, item, first_or_zero(numbers));
        let left = &numbers[stated_count_of(item)..];
        (spaced_after(item), left)
    }

    // The items of a line, with these numbers. So many as a line of a sheet has are put one by one and
    // not in a loop: inlined where a line is written, each is then known.
    #[inline(always)]
    pub(crate) fn put_items(&mut self, items: &[Item], numbers: &[i64])
        requires numbers { stated_count (map item_of items.now) ≤ length numbers.now }
        requires room { Room (form_text (map item_of items.now) numbers.now) self.old }
        ensures { Puts (form_text (map item_of items.now) numbers.now) self.old self.new }
    {
        let (space, rest) = self.put_item(false, items, 0, numbers);
        let (space, rest) = self.put_item(space, items, 1, rest);
        let (space, rest) = self.put_item(space, items, 2, rest);
        let (space, rest) = self.put_item(space, items, 3, rest);
        let (space, rest) = self.put_item(space, items, 4, rest);
        let (space, rest) = self.put_item(space, items, 5, rest);
        let (space, rest) = self.put_item(space, items, 6, rest);
        let (space, rest) = self.put_item(space, items, 7, rest);
        let (space, rest) = self.put_item(space, items, 8, rest);
        let (space, rest) = self.put_item(space, items, 9, rest);
        let (mut space, mut rest) = self.put_item(space, items, 10, rest);
        for i in 11..items.len() {
            let next = self.put_item(space, items, i, rest);
            space = next.0;
            rest = next.1;
        }
    }

    // Whether there is room for the items of a line, with these numbers.
    fn fits(&self, items: &[Item], numbers: &[i64]) -> bool
        requires { stated_count (map item_of items.now) ≤ length numbers.now }
        ensures { IsTrue result ↔ Room (form_text (map item_of items.now) numbers.now) self.now }
    {
        if self.paper.len() < self.at {
            return false;
        }
        let mut room = self.paper.len() - self.at;
        let mut space = false;
        let mut rest = numbers;
        for item in items {
            let length = spaced_length(space, *item, first_or_zero(rest));
            if room < length {
                return false;
            }
            room -= length;
            space = spaced_after(*item);
            rest = &rest[stated_count_of(*item)..];
        }
        true
    }

    /// Writes the items of a line, with a number for each that is stated there, and goes on behind
    /// them. Where there is no room for them it refuses with 22, and nothing changes.
    pub fn items(&mut self, items: &[Item], numbers: &[i64]) -> Result<(), Refusal>
        requires { stated_count (map item_of items.now) ≤ length numbers.now }
        ensures answer { result
            ≡ put_answer (form_text (map item_of items.now) numbers.now) self.old }
        ensures line { OnOk result
            (Puts (form_text (map item_of items.now) numbers.now) self.old self.new) }
        ensures refused { OnErr result (self.new ≡ self.old) }
    {
        if !self.fits(items, numbers) {
            return Err(Refusal::PaperShort);
        }
        self.put_items(items, numbers);
        Ok(())
    }
}
