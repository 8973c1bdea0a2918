// Tokens that were found.
ghost use Rattle.std.specs.Prelude.{◌≡◌};
ghost use Rattle.refusal.specs.declared.refusal.Refusal.{Refusal};

use crate::token::Token;
use refusal::{Fault, Refusal};

/// A token, and where it begins.
#[derive(Clone, Copy, PartialEq, Eq, Debug)]
pub struct Found<'a> {
    /// The token.
    pub token: Token<'a>,
    /// The line of its first byte, from 1.
    pub line: usize,
    /// How many bytes stand before it.
    pub place: usize,
}

impl Found<'_> {
    // A fault of the token, told with its line and place.
    pub(crate) fn refusal(self, fault: Fault) -> Refusal
        ensures { result ≡ Refusal.Sheet fault self.entry.line self.entry.place }
    {
        Refusal::Sheet {
            fault,
            line: self.line,
            place: self.place,
        }
    }
}
