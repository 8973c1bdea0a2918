// The counts at any list of cells, added: a cell is the list of one, a range a list in order.
ghost use Rattle.season.specs.Cells.{CellsLawful};

use field::Field;

/// The sum of the counts at any cells, none twice, asked only of grids that have all of them, is lawful over every lawful field.
pub fn distinct_cells_are_lawful<F: Field>()
    ensures { CellsLawful F.Field.model }
{}
