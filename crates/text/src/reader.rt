// The reader: one token after another, each with its line and place, and items read in their order.
ghost use Rattle.std.specs.Prelude.{◌≡◌, ◌+◌, ◌<◌, ◌≤◌, List, map, length, ℤ, IfOk, OnOk};
ghost use Rattle.text.specs.Tokens.{skip_spaces, next_token, after_token, cursor_start};
ghost use Rattle.text.specs.Items.{stated_count_of, stated_count, stated_front, item_pass, items_pass, passed_to};
ghost use Rattle.text.specs.Marks.{InRanges};
ghost use Rattle.text.specs.Meanings.{token_of, item_of, given_count, passed_one, passed_with};

use crate::found::Found;
use crate::item::Item;
use crate::run::leading_spaces;
use crate::token::Token;
use refusal::Refusal;
use std::marker::Model;

/// Goes over a text without copying it.
#[derive(Debug, Drop)]
pub struct Reader<'a> {
    text: &'a [u8],
    cursor: usize,
    line: usize,
}

/// To its callers a reader is where it is: the bytes that are left, the line, and the place.
impl<'a> Model for Reader<'a> {
    ghost use Rattle.std.specs.Prelude.{◌+◌, ◌≤◌, length};
    ghost use Rattle.text.specs.Tokens.{Cursor};

    ghost Value = { Cursor };

    ghost use Rattle.text.specs.Readers.{cursor_of};

    ghost view = { cursor_of };

    ghost invariant = { λ r. (r.cursor ≤ length r.text.now) × (r.line ≤ r.cursor + 1) };
}

impl<'a> Reader<'a> {
    /// A reader before the first byte of a text.
    pub fn new(text: &'a [u8]) -> Reader<'a>
        ensures { result ≡ cursor_start text.now }
    {
        Reader {
            text,
            cursor: 0,
            line: 1,
        }
    }

    /// Goes past the spaces and the token behind them, and tells where that token begins.
    // Inlined with what it calls: to hand over what was found would be a quarter of the work of
    // reading.
    #[inline(always)]
    #[tactic(auto, using(crate::proofs::Steps::token_is, crate::proofs::Steps::place_is, crate::proofs::Runs::width_le, crate::proofs::Runs::closes_le, std::proofs::lemmas::Grind::common_steps))]
    pub fn next(&mut self) -> Found<'a>
        ensures token { token_of result.token ≡ next_token self.old }
        ensures line { result.line ≡ (skip_spaces self.old).line }
        ensures place { result.place ≡ (skip_spaces self.old).place }
        ensures after { self.new ≡ after_token self.old }
        ensures counted { result.line ≤ result.place + 1 }
        ensures going_on { self.new.line ≤ self.new.place + 1 }
    {
        let rest = &self.text[self.cursor..];
        let skipped = leading_spaces(rest);
        let bytes = &rest[skipped..];
        let token = Token::at_front(bytes);
        let line = self.line;
        let place = self.cursor + skipped;
        self.cursor = place + token.width();
        self.line += token.line_ends();
        Found { token, line, place }
    }

    // Reads the token where an item is next, and gives the number that is stated there, if one is.
    fn item(&mut self, item: Item) -> Result<Option<i64>, Refusal>
        ensures read { (kept : List ℤ)
            → passed_one kept result self.new ≡ item_pass (item_of item) kept self.old }
        ensures count { IfOk result
            (λ number. given_count number ≡ stated_count_of (item_of item)) }
        ensures after { self.new ≡ after_token self.old }
        ensures counted { self.new.line ≤ self.new.place + 1 }
    {
        let found = self.next();
        match item.check(found.token) {
            Ok(number) => Ok(number),
            Err(fault) => Err(found.refusal(fault)),
        }
    }

    /// Reads items in their order, and leaves the numbers that are stated there in front of
    /// `numbers`, which has room for them. It stops behind the first token that is wrong, and refuses
    /// it with its fault, its line and its place (30, 31, 40 to 45); `numbers` may then hold a part.
    #[tactic(auto, using(crate::proofs::Passes::pass_done, crate::proofs::Passes::to_done))]
    pub fn pass(&mut self, items: &[Item], numbers: &mut [i64]) -> Result<(), Refusal>
        requires { stated_count (map item_of items.now) ≤ length numbers.old }
        ensures read { (kept : List ℤ)
            → passed_with (λ _. stated_front (map item_of items.now) numbers.new) kept result self.new
            ≡ items_pass (map item_of items.now) kept self.old }
        ensures ranges { OnOk result
            (InRanges (map item_of items.now) (stated_front (map item_of items.now) numbers.new)) }
        ensures after { self.new ≡ passed_to (map item_of items.now) self.old }
        ensures counted { 0 < length items.now → self.new.line ≤ self.new.place + 1 }
    {
        let mut at = 0;
        for item in items {
            if let Some(number) = self.item(*item)? {
                numbers[at] = number;
                at += 1;
            }
        }
        Ok(())
    }
}
