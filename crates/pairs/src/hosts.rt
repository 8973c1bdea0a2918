// A host of the product and one of the reference.
use crate::end::End;
use crate::names::Names;
use crate::pair::Pair;
use board::{Bank, Book, Move};
use field::Field;
use host::Listening;
use reference::{Arithmetic, Game, Standing, Stop, note_at_host, open_host};
use refusal::Refusal;
use report::Call;

/// Two hosts, told the same.
pub type HostPair<F> = Pair<Listening<F>>;

impl<F: Field> End for Listening<F> {
    type Cell = i32;

    type Plain = i64;

    type Secret = ();

    const NAMES: Names = Names {
        open: Call::OpenHost,
        note: Call::NoteHost,
        opening: "opening a host",
        opened_bank: "the host's bank after opening",
        telling: "a move at the host",
        weight: "the host's weight",
        number: "the host's number",
        bank: "the host's bank",
    };

    fn cell(plain: i64) -> i32 {
        i32::try_from(plain).unwrap_or(0)
    }

    fn plain(cell: i32) -> i64 {
        i64::from(cell)
    }

    fn opened(
        rows: u64,
        columns: u64,
        _secret: (),
        bank: &mut Bank<'_, i32>,
    ) -> Result<Listening<F>, Refusal> {
        Listening::open(rows, columns, bank)
    }

    fn opened_plainly(
        field: Arithmetic,
        rows: u64,
        columns: u64,
        bank: &mut [i64],
    ) -> Result<Standing, Stop> {
        Ok(open_host(field, rows, columns, bank)?)
    }

    fn told(&mut self, bank: &mut Bank<'_, i32>, m: Move) -> Result<(), Refusal> {
        self.note(bank, m)
    }

    fn told_plainly(
        game: Game,
        _secret: (),
        bank: &mut [i64],
        m: reference::Move,
    ) -> Result<Standing, Stop> {
        Ok(note_at_host(game.at, bank, m)?)
    }

    fn standing(&self) -> &Book {
        self.book()
    }
}
