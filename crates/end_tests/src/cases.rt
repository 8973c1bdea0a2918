// What the tests share: the two ends behind one trait, the moves on the worked board, and moves with what is expected of them.
use board::{Bank, Book, Move};
use field::Field;
use refusal::Refusal;
use std::process::Abort;

// The moves on the worked board, of 2 rows and 8 columns.
pub(crate) const MOVES: [Move; 3] = [
    Move { cell: 0, amount: 3 },
    Move { cell: 8, amount: 1 },
    Move {
        cell: 9,
        amount: -2,
    },
];

// An end that listens.
pub(crate) trait End: Drop {
    type Cell: Copy;

    // A new end; a box is at the point 5.
    fn open(rows: u64, columns: u64, bank: &mut Bank<'_, Self::Cell>) -> Result<Self, Refusal>;

    fn note(&mut self, bank: &mut Bank<'_, Self::Cell>, m: Move) -> Result<(), Refusal>;

    fn book(&self) -> &Book;

    // The number that a cell holds.
    fn held(cell: Self::Cell) -> i64;
}

impl<F: Field> End for host::Listening<F> {
    type Cell = i32;

    fn open(rows: u64, columns: u64, bank: &mut Bank<'_, i32>) -> Result<Self, Refusal> {
        host::Listening::open(rows, columns, bank)
    }

    fn note(&mut self, bank: &mut Bank<'_, i32>, m: Move) -> Result<(), Refusal> {
        host::Listening::note(self, bank, m)
    }

    fn book(&self) -> &Book {
        host::Listening::book(self)
    }

    fn held(cell: i32) -> i64 {
        i64::from(cell)
    }
}

impl<F: Field> End for verifier::Listening<F> {
    type Cell = F;

    fn open(rows: u64, columns: u64, bank: &mut Bank<'_, F>) -> Result<Self, Refusal> {
        verifier::Listening::open(rows, columns, F::image(5), bank)
    }

    fn note(&mut self, bank: &mut Bank<'_, F>, m: Move) -> Result<(), Refusal> {
        verifier::Listening::note(self, bank, m)
    }

    fn book(&self) -> &Book {
        verifier::Listening::book(self)
    }

    fn held(cell: F) -> i64 {
        i64::from(cell.low())
    }
}

// A move by its cell and amount, its answer, and the weight and the number of accepted moves after it.
pub(crate) type Step = (u64, i64, Result<(), Refusal>, u32, u32);

// The book of a board of 2 rows and 8 columns.
pub(crate) fn check_book(rt: &impl Abort, book: &Book, weight: u32, number: u32) {
    assert!(rt; book.grid().rows == 2 && book.grid().columns == 8);
    assert!(rt; book.weight() == weight && book.number() == number);
}

// Tells an end moves.
pub(crate) fn check_notes<E: End>(
    rt: &impl Abort,
    end: &mut E,
    bank: &mut Bank<'_, E::Cell>,
    steps: &[Step],
) {
    for (cell, amount, answer, weight, number) in steps.iter().copied() {
        assert_eq!(rt; end.note(bank, Move { cell, amount }), answer);
        check_book(rt, end.book(), weight, number);
    }
}
