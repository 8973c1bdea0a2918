// Reading a sheet into a tray of the caller's.
ghost use Rattle.std.specs.Prelude.{◌≡◌, ℕ, suc, ◌<◌, List, [], ◌∷◌, ◌++◌, length, take, drop, ℤ, pos, IfOk};
ghost use Rattle.field.specs.Field.{PartsOf};
ghost use Rattle.refusal.specs.declared.fault.Fault.{Fault};
ghost use Rattle.refusal.specs.declared.refusal.Refusal.{Refusal};
ghost use Rattle.text.specs.Items.{items_pass};
ghost use Rattle.text.specs.Meanings.{passed_with};
ghost use Rattle.sheet.specs.Lines.{sheet_line, claim_line, value_line};
ghost use Rattle.sheet.specs.Sheets.{Sheet, FirstFault};
ghost use Rattle.sheet.specs.Readings.{reading, claim_of, Filled, read_answer, tray_after};

use crate::lines::{claim_line, end_line, sheet_line, value_line};
use crate::terms::Terms;
use board::fill_cells;
use field::Field;
use refusal::Refusal;
use text::Reader;

// Reads the first line and the claim's line.
fn read_claim<F: Field>(reader: &mut Reader<'_>, terms: &Terms) -> Result<i64, Refusal>
    ensures { (kept : List ℤ) → passed_with (λ z. z ∷ []) kept result reader.new
        ≡ items_pass (sheet_line F.Field.model terms.now ++ claim_line terms.now) kept reader.old }
{
    let mut claim = [0; 1];
    reader.pass(&sheet_line::<F>(terms), &mut [])?;
    reader.pass(&claim_line(terms), &mut claim)?;
    Ok(claim[0])
}

// Reads value line j, and gives the parts of its value.
fn read_parts<F: Field>(reader: &mut Reader<'_>, j: u32) -> Result<(u32, u32), Refusal>
    ensures read { (kept : List ℤ)
        → passed_with (λ parts. pos parts.0 ∷ pos parts.1 ∷ []) kept result reader.new
        ≡ items_pass (value_line F.Field.model j) kept reader.old }
    ensures parts { IfOk result (λ parts. PartsOf F.Field.model parts.0 parts.1) }
{
    let mut parts = [0; 2];
    reader.pass(&value_line::<F>(j), &mut parts)?;
    Ok((parts[0] as u32, parts[1] as u32))
}

// Reads a sheet into the first elements of the tray. After a fault they may hold a part of it.
fn fill<F: Field>(sheet: &[u8], terms: &Terms, tray: &mut [F]) -> Result<i64, Refusal>
    requires { terms.now.degree < length tray.old }
    ensures answer { result ≡ claim_of F.Field.model (reading F.Field.model terms.now sheet.now) }
    ensures tray { Filled F.Field.model (suc terms.now.degree)
        (reading F.Field.model terms.now sheet.now) tray.old tray.new }
{
    let mut reader = Reader::new(sheet);
    let claim = read_claim::<F>(&mut reader, terms)?;
    let values = &mut tray[..=terms.degree as usize];
    for (j, value) in values.iter_mut().enumerate() {
        let (low, high) = read_parts::<F>(&mut reader, j as u32)?;
        *value = F::of_parts(low, high);
    }
    reader.pass(&end_line(), &mut [])?;
    Ok(claim)
}

// Reads a sheet into a tray that is long enough, and leaves zeros there after a fault.
#[tactic(auto, using(crate::proofs::Fills::answer_is, crate::proofs::Fills::tray_after_lem, crate::proofs::Fills::values_kept, crate::proofs::Fills::zeros_put))]
fn read<F: Field>(sheet: &[u8], terms: &Terms, tray: &mut [F]) -> Result<i64, Refusal>
    ensures answer { result ≡ read_answer F.Field.model terms.now sheet.now tray.old }
    ensures tray { tray.new ≡ tray_after F.Field.model terms.now sheet.now tray.old }
{
    let degree = terms.degree as usize;
    if tray.len() <= degree {
        return Err(Refusal::TrayShort);
    }
    let answer = fill(sheet, terms, tray);
    if answer.is_err() {
        fill_cells(tray, degree + 1, F::zero());
    }
    answer
}

/// Reads a sheet: leaves its values in the first degree + 1 elements of the tray, and answers its
/// claim. A tray with fewer elements is refused with 21 and stays as it is. A sheet with a fault is
/// refused with the first, its line and its place (30, 31, 40 to 45), and leaves zeros in the first
/// degree + 1 elements.
pub fn read_sheet<F: Field>(sheet: &[u8], terms: &Terms, tray: &mut [F]) -> Result<i64, Refusal>
    ensures answer { result ≡ read_answer F.Field.model terms.now sheet.now tray.old }
    ensures tray { tray.new ≡ tray_after F.Field.model terms.now sheet.now tray.old }

    // What it gives the bytes state, what they state it gives, and a fault that it tells is their
    // first.
    ensures states { IfOk result (λ claim.
        Sheet F.Field.model terms.now claim (take (suc terms.now.degree) tray.new) sheet.now) }
    ensures gives { (claim : ℤ) (values : List F) → terms.now.degree < length tray.old
        → Sheet F.Field.model terms.now claim values sheet.now
        → (result ≡ Ok claim) × (tray.new ≡ values ++ drop (suc terms.now.degree) tray.old) }
    ensures first { (fault : Fault) (line place : ℕ) → result ≡ Err (Refusal.Sheet fault line place)
        → FirstFault F.Field.model terms.now sheet.now fault line place }
{
    read(sheet, terms, tray)
}
