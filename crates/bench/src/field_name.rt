// The four fields by name.
ghost use Rattle.std.specs.Prelude.{◌≡◌};
ghost use Rattle.bench.specs.Words.{Names, field_word};

use crate::mistake::Mistake;
use fields::NamedField;
use std::fmt;
use std::str::FromStr;

/// One of the four named fields, by a word of this program.
#[derive(Clone, Copy, PartialEq, Eq, Debug)]
pub struct FieldName(pub NamedField);

impl FieldName {
    /// All four: both base fields, and the extension of each.
    pub const ALL: [FieldName; 4] = [
        FieldName(NamedField::Mod65537),
        FieldName(NamedField::Mersenne31),
        FieldName(NamedField::Mod65537x2),
        FieldName(NamedField::Mersenne31x2),
    ];

    /// The word that names it.
    pub fn word(self) -> &'static str
        ensures { result.now ≡ field_word self }
    {
        match self.0 {
            NamedField::Mod65537 => "f65537",
            NamedField::Mersenne31 => "m31",
            NamedField::Mod65537x2 => "f65537x2",
            NamedField::Mersenne31x2 => "m31x2",
        }
    }
}

impl FromStr for FieldName {
    type Err = Mistake;

    ghost from_str_gives = { Names field_word };

    fn from_str(word: &str) -> Result<FieldName, Mistake> {
        match word {
            "f65537" => Ok(FieldName(NamedField::Mod65537)),
            "m31" => Ok(FieldName(NamedField::Mersenne31)),
            "f65537x2" => Ok(FieldName(NamedField::Mod65537x2)),
            "m31x2" => Ok(FieldName(NamedField::Mersenne31x2)),
            _ => Err(Mistake::UnknownField),
        }
    }
}

impl fmt::Display for FieldName {
    fn fmt<W: fmt::Write>(&self, f: &mut fmt::Formatter<W>) -> fmt::Result {
        f.pad(self.word())
    }
}
