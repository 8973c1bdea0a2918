// Writing.
ghost use Rattle.std.specs.Prelude.{◌≡◌, OnOk};
ghost use Rattle.writer.specs.Papers.{Puts, put_answer};
ghost use Rattle.form_tests.specs.Toys.{toy_text};

use crate::lines::{at_line, grid_line};
use refusal::Refusal;
use writer::Pen;

/// Writes the text of two numbers under the number n. Where there is no room for it, it refuses with
/// 22; the first line may then be written.
pub fn write_toy(pen: &mut Pen<'_>, n: u32, first: i64, second: i64) -> Result<(), Refusal>
    ensures answer { result ≡ put_answer (toy_text n first second) pen.old }
    ensures text { OnOk result (Puts (toy_text n first second) pen.old pen.new) }
{
    pen.items(&grid_line(n), &[])?;
    pen.items(&at_line(), &[first, second])
}
