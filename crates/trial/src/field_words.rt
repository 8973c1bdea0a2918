// Named fields in words.
use fields::NamedField;
use std::fmt;

/// A named field in words.
#[derive(Clone, Copy)]
pub struct FieldWords(pub NamedField);

impl fmt::Display for FieldWords {
    fn fmt<W: fmt::Write>(&self, f: &mut fmt::Formatter<W>) -> fmt::Result {
        let p = self.0.characteristic();
        write!(f, "residues modulo {p}")?;
        match self.0.degree() {
            1 => Ok(()),
            _ => f.write_str(" with t"),
        }
    }
}
