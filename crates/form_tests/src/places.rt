// What a reader that was begun elsewhere says of where it is.
ghost use Rattle.std.specs.Prelude.{◌+◌, ◌≤◌};

use refusal::Refusal;
use text::{Found, Item, Reader};

/// The token where a reader is, whoever began it: no more line ends lie before it than bytes.
pub fn token_found<'a>(reader: &mut Reader<'a>) -> Found<'a>
    ensures { result.line ≤ result.place + 1 }
{
    reader.next()
}

/// An opening bracket where a reader is, or the refusal of what is there; and the same of where the reader is then.
pub fn bracket_passed(reader: &mut Reader<'_>) -> Result<(), Refusal>
    ensures { reader.new.line ≤ reader.new.place + 1 }
{
    reader.pass(&[Item::Open], &mut [])
}
