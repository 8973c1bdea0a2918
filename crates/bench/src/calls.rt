// The calls by name.
ghost use Rattle.std.specs.Prelude.{◌≡◌};
ghost use Rattle.bench.specs.Words.{Names, call_word};

use crate::mistake::Mistake;
use std::fmt;
use std::str::FromStr;

/// A call that is done many times.
#[derive(Clone, Copy, PartialEq, Eq, Debug)]
pub enum Call {
    /// A move told to a box.
    BoxNote,
    /// A move told to a host.
    HostNote,
    /// A host's answer to the squares, with its sheet.
    Answer,
    /// A box's judgement of that sheet.
    Judge,
    /// The reading of that sheet alone.
    Read,
    /// The writing of that sheet alone.
    Write,
}

impl Call {
    /// Every call.
    pub const ALL: [Call; 6] = [
        Call::BoxNote,
        Call::HostNote,
        Call::Answer,
        Call::Judge,
        Call::Read,
        Call::Write,
    ];

    /// The word that names it.
    pub fn word(self) -> &'static str
        ensures { result.now ≡ call_word self }
    {
        match self {
            Call::BoxNote => "box-note",
            Call::HostNote => "host-note",
            Call::Answer => "answer",
            Call::Judge => "judge",
            Call::Read => "read",
            Call::Write => "write",
        }
    }
}

impl FromStr for Call {
    type Err = Mistake;

    ghost from_str_gives = { Names call_word };

    fn from_str(word: &str) -> Result<Call, Mistake> {
        match word {
            "box-note" => Ok(Call::BoxNote),
            "host-note" => Ok(Call::HostNote),
            "answer" => Ok(Call::Answer),
            "judge" => Ok(Call::Judge),
            "read" => Ok(Call::Read),
            "write" => Ok(Call::Write),
            _ => Err(Mistake::UnknownCall),
        }
    }
}

impl fmt::Display for Call {
    fn fmt<W: fmt::Write>(&self, f: &mut fmt::Formatter<W>) -> fmt::Result {
        f.pad(self.word())
    }
}
