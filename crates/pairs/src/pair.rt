// One end of the product and the reference's.
use crate::end::End;
use board::Bank;
use reference::{Move, Standing};
use report::{Outcome, Table, bare, found, own_move, same, wanted};
use std::alloc::{AllocError, Global};

/// An end of the product and the reference's, told the same, with their banks.
#[derive(Drop)]
pub struct Pair<E: End> {
    /// The product's.
    pub product: E,
    /// The product's bank.
    pub cells: Vec<E::Cell>,
    /// How the reference's stands.
    pub standing: Standing,
    /// What both were opened with besides a grid and a bank.
    pub secret: E::Secret,
    /// The reference's bank.
    pub plain: Vec<E::Plain>,
}

impl<E: End> Pair<E> {
    /// A bank for the product's, with the content of the reference's.
    pub fn cells_of(heap: Global, plain: &[E::Plain]) -> Result<Vec<E::Cell>, AllocError> {
        plain.iter().map(|x| E::cell(*x)).collect(heap)
    }

    /// Opens both on a board, with banks of the same content; nothing where one refuses, or where the reference's has no
    /// memory, which is a difference.
    pub fn open(
        table: &mut Table,
        rows: u64,
        columns: u64,
        secret: E::Secret,
        cells: Vec<E::Cell>,
        plain: Vec<E::Plain>,
    ) -> Option<Pair<E>> {
        let Table { source, report } = table;
        let mut cells = cells;
        let mut plain = plain;
        let opened = E::opened(rows, columns, secret, &mut Bank::new(cells.as_mut_slice()));
        let opened = found(opened);
        let standing = E::opened_plainly(source.field, rows, columns, plain.as_mut_slice());
        let standing = wanted(standing);
        let names = E::NAMES;
        report.outcome(names.open, names.opening, &bare(&opened), &bare(&standing));
        let same = same(cells.as_slice(), plain.as_slice(), |x| E::plain(x));
        report.holds(names.opened_bank, same);
        let both = opened.ok().zip(standing.ok());
        both.map(|(product, standing)| Pair {
            product,
            cells,
            standing,
            secret,
            plain,
        })
    }

    /// Tells both a move: what the product's call came to. Where the reference's has no memory, that is a difference.
    pub fn note(&mut self, table: &mut Table, m: Move) -> Outcome<()> {
        let Table { source, report } = table;
        let told = self
            .product
            .told(&mut Bank::new(self.cells.as_mut_slice()), own_move(m));
        let told = found(told);
        let game = source.game(self.standing);
        let plain = E::told_plainly(game, self.secret, self.plain.as_mut_slice(), m);
        let plain = wanted(plain);
        let names = E::NAMES;
        report.outcome(names.note, names.telling, &told, &bare(&plain));
        if let Ok(standing) = plain {
            self.standing = standing;
        }
        let book = self.product.standing();
        report.same(names.weight, u64::from(book.weight()), self.standing.weight);
        report.same(names.number, u64::from(book.number()), self.standing.number);
        told
    }

    /// Tells both a move, with banks that are one cell shorter.
    pub fn note_short(&mut self, table: &mut Table, m: Move) {
        let cell = self.cells.pop();
        let plain = self.plain.pop();
        let _ = self.note(table, m);
        // The room that they left is still there.
        if let Some(cell) = cell {
            let _ = self.cells.push(cell);
        }
        if let Some(plain) = plain {
            let _ = self.plain.push(plain);
        }
    }

    /// Holds the whole bank to the reference's.
    pub fn compare_bank(&self, table: &mut Table) {
        let same = same(
            self.cells.as_slice(),
            self.plain.as_slice(),
            |x| E::plain(x),
        );
        table.report.holds(E::NAMES.bank, same);
    }
}
