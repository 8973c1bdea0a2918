// What a line of a form has next.
ghost use Rattle.std.specs.Prelude.{◌≡◌, IfOk};
ghost use Rattle.text.specs.Items.{stated_count_of, item_verdict};

use crate::keyword::Keyword;
use crate::token::Token;
use refusal::Fault;

/// What a line of a form has next.
#[derive(Clone, Copy, PartialEq, Eq, Debug)]
pub enum Item {
    /// An opening bracket.
    Open,
    /// A closing bracket.
    Close,
    /// A line end.
    LineEnd,
    /// A word of the format.
    Word(Keyword),
    /// This number; another has this fault.
    Given(u32, Fault),
    /// A number from the first to the second, which the text states; another has this fault.
    Stated(i64, i64, Fault),
    /// The end of the text.
    End,
}

impl Item {
    ghost use Rattle.text.specs.Meanings.{token_of, item_of, verdict_of, given_count};

    // The number that is stated by a token where this is next, if one is; or the token's fault.
    pub(crate) fn check(self, token: Token<'_>) -> Result<Option<i64>, Fault>
        ensures verdict { verdict_of result ≡ item_verdict (item_of self) (token_of token.entry) }
        ensures count { IfOk result
            (λ number. given_count number ≡ stated_count_of (item_of self)) }
    {
        match (self, token) {
            (_, Token::Malformed(_)) => Err(Fault::Malformed),
            (Item::Open, Token::Open)
            | (Item::Close, Token::Close)
            | (Item::LineEnd, Token::LineEnd)
            | (Item::End, Token::End) => Ok(None),
            (Item::Word(keyword), Token::Word(run)) if run == keyword.text() => Ok(None),
            (Item::Given(n, _), Token::Number(_, z)) if z == i64::from(n) => Ok(None),
            (Item::Given(_, fault), Token::Number(..)) => Err(fault),
            (Item::Stated(least, greatest, _), Token::Number(_, z))
                if (least..=greatest).contains(&z) => { Ok(Some(z)) }
            (Item::Stated(_, _, fault), Token::Number(..)) => Err(fault),
            _ => Err(Fault::Unexpected),
        }
    }
}
