// Writing a sheet onto paper of the caller's.
ghost use Rattle.std.specs.Prelude.{◌≡◌, ◌≤◌, length};
ghost use Rattle.text.specs.Forms.{whole_form};
ghost use Rattle.sheet.specs.Lines.{value_lines};
ghost use Rattle.sheet.specs.Sheets.{part_numbers, parts_of};
ghost use Rattle.writer.specs.Texts.{form_text, text};
ghost use Rattle.writer.specs.Papers.{Lays, Room, Puts, write_answer, paper_after};

use crate::limits::{ENOUGH_PAPER, MOST_VALUES};
use crate::pen::Pen;
use field::Field;
use refusal::Refusal;
use sheet::{Terms, claim_line, end_line, sheet_line, value_line};

// Puts the value lines and the last line.
fn put_values<F: Field>(pen: &mut Pen<'_>, values: &[F])
    requires few { length values.now ≤ MOST_VALUES }
    requires room { Room
        (form_text (whole_form (value_lines F.Field.model 0 (length values.now)))
        (part_numbers (parts_of F.Field.model values.now)))
        pen.old }
    ensures { Puts
        (form_text (whole_form (value_lines F.Field.model 0 (length values.now)))
        (part_numbers (parts_of F.Field.model values.now)))
        pen.old pen.new }
{
    for (j, value) in values.iter().enumerate() {
        let parts = [i64::from(value.low()), i64::from(value.high())];
        pen.put_items(&value_line::<F>(j as u32), &parts);
    }
    pen.put_items(&end_line(), &[]);
}

// Puts the sheet of a claim and values. Here and below the terms are apart from the claim and the
// values: a question gives the one, and its count and its polynomial the others.
fn put_lines<F: Field>(pen: &mut Pen<'_>, terms: &Terms, claim: i64, values: &[F])
    requires few { length values.now ≤ MOST_VALUES }
    requires room { Room (text F.Field.model terms.now claim values.now) pen.old }
    ensures { Puts (text F.Field.model terms.now claim values.now) pen.old pen.new }
{
    pen.put_items(&sheet_line::<F>(terms), &[]);
    pen.put_items(&claim_line(terms), &[claim]);
    put_values(pen, values);
}

// Puts the sheet of a claim and values at the start of the paper, on which there is room for it,
// and returns its length.
fn put_sheet<F: Field>(paper: &mut [u8], terms: &Terms, claim: i64, values: &[F]) -> usize
    requires few { length values.now ≤ MOST_VALUES }
    requires room { length (text F.Field.model terms.now claim values.now) ≤ length paper.old }
    ensures { Lays (text F.Field.model terms.now claim values.now) paper.old 0 paper.new result }
{
    let mut pen = Pen::new(paper);
    put_lines(&mut pen, terms, claim, values);
    pen.place()
}

// Writes a sheet where it has no more values than a sheet may have and the paper is enough for
// every such sheet. It takes the terms by value: of numbers behind a reference the proof knows no
// range.
fn write<F: Field>(
    paper: &mut [u8],
    terms: Terms,
    claim: i64,
    values: &[F],
) -> Result<usize, Refusal>
    ensures answer { result ≡ write_answer F.Field.model terms claim values.now paper.old }
    ensures paper { paper.new ≡ paper_after F.Field.model terms claim values.now paper.old }
{
    if values.len() > MOST_VALUES || paper.len() < ENOUGH_PAPER {
        return Err(Refusal::PaperShort);
    }
    Ok(put_sheet(paper, &terms, claim, values))
}

/// Writes the sheet of a claim and values at the start of the paper, and returns its length; the
/// bytes behind it stay as they were. More than `MOST_VALUES` values, or less than `ENOUGH_PAPER`
/// bytes of paper, are refused alike, with 22, and nothing is written.
pub fn write_sheet<F: Field>(
    paper: &mut [u8],
    terms: &Terms,
    claim: i64,
    values: &[F],
) -> Result<usize, Refusal>
    ensures answer { result ≡ write_answer F.Field.model terms.now claim values.now paper.old }
    ensures paper { paper.new ≡ paper_after F.Field.model terms.now claim values.now paper.old }
{
    write(paper, *terms, claim, values)
}
