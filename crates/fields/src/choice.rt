// The choice of a named field by its numbers.
ghost use Rattle.std.specs.Prelude.{◌↔◌, IsTrue, IsOk, IfOk};
ghost use Rattle.fields.specs.NamedFields.{is_named};

use crate::named::NamedField;
use crate::task::FieldTask;
use std::error::Error;
use std::fmt;

/// No named field has these numbers.
#[derive(Clone, Copy, PartialEq, Eq, Debug)]
pub struct UnknownField;

/// Says so, in words.
impl fmt::Display for UnknownField {
    ghost use Rattle.std.specs.Prelude.{Some, codes};

    ghost output = { λ _. Some (codes "no field here has this characteristic and this degree") };

    fn fmt<W: fmt::Write>(&self, f: &mut fmt::Formatter<W>) -> fmt::Result {
        f.write_str("no field here has this characteristic and this degree")
    }
}

impl Error for UnknownField {}

/// Does a task over the named field of characteristic p and degree e. Where p is neither 65,537 nor
/// 2,147,483,647, or e neither 1 nor 2, there is none, and nothing is done.
pub fn with_field<T: FieldTask + Drop>(p: u32, e: u32, task: T) -> Result<T::Out, UnknownField>
    ensures known { IsOk result ↔ IsTrue (is_named p e) }
    ensures done { IfOk result (λ out. T.run_gives p e task out) }
{
    match NamedField::of_numbers(p, e) {
        Some(field) => Ok(field.run(task)),
        None => Err(UnknownField),
    }
}
