// Books in words.
use board::Book;
use std::fmt;

/// How an end stands, in words.
#[derive(Clone, Copy)]
pub struct BookWords<'a> {
    /// What the end is called.
    pub end: &'static str,
    /// Its book.
    pub book: &'a Book,
}

impl fmt::Display for BookWords<'_> {
    fn fmt<W: fmt::Write>(&self, f: &mut fmt::Formatter<W>) -> fmt::Result {
        let end = self.end;
        let weight = self.book.weight();
        let number = self.book.number();
        write!(f, "the {end} accepted {number} moves, which weigh {weight}")
    }
}
