// The words of the format.
ghost use Rattle.std.specs.Prelude.{◌≡◌};

/// A word of the format.
#[derive(Clone, Copy, PartialEq, Eq, Debug)]
pub enum Keyword {
    /// `sheet`
    Sheet,
    /// `grid`
    Grid,
    /// `claim`
    Claim,
    /// `at`
    At,
    /// `end`
    End,
}

impl Keyword {
    ghost use Rattle.text.specs.Items.{spelled};

    /// The bytes of the word.
    pub fn text(self) -> &'static [u8]
        ensures { result.now ≡ spelled self }
    {
        match self {
            Keyword::Sheet => b"sheet",
            Keyword::Grid => b"grid",
            Keyword::Claim => b"claim",
            Keyword::At => b"at",
            Keyword::End => b"end",
        }
    }
}
