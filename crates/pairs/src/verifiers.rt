// A box of the product and one of the reference, at the same secret point.
use crate::end::End;
use crate::names::Names;
use crate::pair::Pair;
use board::{Bank, Book, Move};
use field::Field;
use reference::{Arithmetic, Element, Game, Standing, Stop, note_at_verifier, open_verifier};
use refusal::Refusal;
use report::{Call, element, parts};
use verifier::Listening;

/// Two boxes, told the same.
pub type VerifierPair<F> = Pair<Listening<F>>;

impl<F: Field> End for Listening<F> {
    type Cell = F;

    type Plain = Element;

    type Secret = Element;

    const NAMES: Names = Names {
        open: Call::OpenBox,
        note: Call::NoteBox,
        opening: "opening a box",
        opened_bank: "the box's bank after opening",
        telling: "a move at the box",
        weight: "the box's weight",
        number: "the box's number",
        bank: "the box's bank",
    };

    fn cell(plain: Element) -> F {
        element(plain)
    }

    fn plain(cell: F) -> Element {
        parts(cell)
    }

    fn opened(
        rows: u64,
        columns: u64,
        secret: Element,
        bank: &mut Bank<'_, F>,
    ) -> Result<Listening<F>, Refusal> {
        Listening::open(rows, columns, element(secret), bank)
    }

    fn opened_plainly(
        field: Arithmetic,
        rows: u64,
        columns: u64,
        bank: &mut [Element],
    ) -> Result<Standing, Stop> {
        Ok(open_verifier(field, rows, columns, bank)?)
    }

    fn told(&mut self, bank: &mut Bank<'_, F>, m: Move) -> Result<(), Refusal> {
        self.note(bank, m)
    }

    fn told_plainly(
        game: Game,
        secret: Element,
        bank: &mut [Element],
        m: reference::Move,
    ) -> Result<Standing, Stop> {
        note_at_verifier(game, secret, bank, m)
    }

    fn standing(&self) -> &Book {
        self.book()
    }
}
