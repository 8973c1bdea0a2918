// Tokens.
ghost use Rattle.std.specs.Prelude.{◌≡◌};
ghost use Rattle.text.specs.Tokens.{classed, token_at, width, line_ends};

use crate::run::{is_word, number_value, run_length};

/// What stands at a place of a text: a token, a run that is none, or the end. A run is part of
/// the text.
#[derive(Clone, Copy, PartialEq, Eq, Debug)]
pub enum Token<'a> {
    /// An opening bracket.
    Open,
    /// A closing bracket.
    Close,
    /// A line end.
    LineEnd,
    /// One to eight letters a to z.
    Word(&'a [u8]),
    /// An optional minus sign and one to ten digits, with the value.
    Number(&'a [u8], i64),
    /// A run that is neither a word nor a number.
    Malformed(&'a [u8]),
    /// The end of the text.
    End,
}

impl<'a> Token<'a> {
    ghost use Rattle.text.specs.Meanings.{token_of};

    // A run as a whole: a word, a number or neither.
    fn classed(run: &'a [u8]) -> Self
        ensures { token_of result ≡ classed run.now }
    {
        if is_word(run) {
            return Token::Word(run);
        }
        match number_value(run) {
            Some(z) => Token::Number(run, z),
            None => Token::Malformed(run),
        }
    }

    // The token at the front of bytes that do not begin with a space.
    #[inline(always)]
    #[tactic(auto, using(crate::proofs::Runs::by_run))]
    pub(crate) fn at_front(bytes: &'a [u8]) -> Self
        ensures { token_of result ≡ token_at bytes.now }
    {
        match bytes {
            [] => Token::End,
            [b'(', ..] => Token::Open,
            [b')', ..] => Token::Close,
            [b'\n', ..] => Token::LineEnd,
            _ => Token::classed(&bytes[..run_length(bytes)]),
        }
    }

    // How many bytes it takes.
    #[inline(always)]
    pub(crate) fn width(&self) -> usize
        ensures { result ≡ width (token_of self.now) }
    {
        match self {
            Token::Open | Token::Close | Token::LineEnd => 1,
            Token::Word(run) | Token::Number(run, _) | Token::Malformed(run) => run.len(),
            Token::End => 0,
        }
    }

    // How many lines it closes.
    pub(crate) fn line_ends(&self) -> usize
        ensures { result ≡ line_ends (token_of self.now) }
    {
        match self {
            Token::LineEnd => 1,
            _ => 0,
        }
    }
}
