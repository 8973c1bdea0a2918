// Reading.
ghost use Rattle.std.specs.Prelude.{◌≡◌, ℕ, [], ◌∷◌, ℤ, IfOk};
ghost use Rattle.refusal.specs.declared.fault.Fault.{Fault};
ghost use Rattle.refusal.specs.declared.refusal.Refusal.{Refusal};
ghost use Rattle.text.specs.Forms.{States, Breaks};
ghost use Rattle.form_tests.specs.Toys.{toy_lines, toy_reading};

use crate::lines::{at_line, grid_line};
use refusal::Refusal;
use text::Reader;

// Reads the two lines.
fn read(bytes: &[u8], n: u32) -> Result<(i64, i64), Refusal>
    ensures { result ≡ toy_reading n bytes.now }
{
    let mut reader = Reader::new(bytes);
    let mut numbers = [0; 2];
    reader.pass(&grid_line(n), &mut [])?;
    reader.pass(&at_line(), &mut numbers)?;
    Ok((numbers[0], numbers[1]))
}

/// The two numbers of a text under the number n. Its first fault is refused with its line and its
/// place.
pub fn read_toy(bytes: &[u8], n: u32) -> Result<(i64, i64), Refusal>
    ensures answer { result ≡ toy_reading n bytes.now }

    // What it gives the bytes state, what they state it gives, and a fault that it tells is their
    // first.
    ensures states { IfOk result (λ v. States (toy_lines n) (v.0 ∷ v.1 ∷ []) bytes.now) }
    ensures gives { (a b : ℤ) → States (toy_lines n) (a ∷ b ∷ []) bytes.now → result ≡ Ok (a, b) }
    ensures first { (fault : Fault) (line place : ℕ) → result ≡ Err (Refusal.Sheet fault line place)
        → Breaks (toy_lines n) bytes.now fault line place }
{
    read(bytes, n)
}
