// The laws of reading, over every field.
ghost use Rattle.sheet.specs.Laws.{ReadsSheets, ReadsAllowed, TellsFirst, RefusesSheets};

use field::Field;

/// Reading gives a claim and values exactly where the bytes are a sheet that states them.
pub fn reads_sheets<F: Field>()
    ensures { ReadsSheets F.Field.model }
{}

/// What reading gives is what the terms allow.
pub fn reads_allowed<F: Field>()
    ensures { ReadsAllowed F.Field.model }
{}

/// A refusal tells the first fault, with its line and place.
pub fn tells_first<F: Field>()
    ensures { TellsFirst F.Field.model }
{}

/// Reading refuses with nothing but a fault of the sheet.
pub fn refuses_sheets<F: Field>()
    ensures { RefusesSheets F.Field.model }
{}
