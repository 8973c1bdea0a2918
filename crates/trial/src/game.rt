// A game on a board of two rows and eight columns, told to both ends and sealed, with what is then asked of them.
use crate::book_words::BookWords;
use crate::boxes::secret_point;
use crate::count_table::CountTable;
use crate::ends::{Ends, Listening, Sealed};
use crate::questions;
use crate::told_words::ToldWords;
use board::{Bank, Book, Move};
use field::Field;
use fields::Mod65537;
use std::io;

/// The moves of the game that count.
pub const COUNTED: [Move; 3] = [
    Move { cell: 0, amount: 3 },
    Move { cell: 8, amount: 1 },
    Move {
        cell: 9,
        amount: -2,
    },
];

// The moves behind them, which are refused.
const REFUSED: [Move; 4] = [
    Move {
        cell: 16,
        amount: 1,
    },
    Move { cell: 0, amount: 0 },
    Move {
        cell: 0,
        amount: 257,
    },
    Move {
        cell: 0,
        amount: 256,
    },
];

/// The secret point of the game's box.
pub const POINT: u32 = 5;

// Tells both ends the moves, and prints what they answer.
fn tell(rt: &impl Print, ends: &mut Listening<'_>, moves: &[Move]) -> io::Result<()> {
    for m in moves {
        let told = ends.note(*m);
        println!(rt; "  {}", ToldWords(told))?;
    }
    Ok(())
}

// How an end stands.
fn print_book(rt: &impl Print, end: &'static str, book: &Book) -> io::Result<()> {
    println!(rt; "  {}", BookWords { end, book })
}

// What the ends keep of the moves.
fn print_banks(rt: &impl Print, ends: &Sealed<'_>) -> io::Result<()> {
    let table = CountTable {
        grid: ends.host.book().grid(),
        counts: ends.counts.cells(),
    };
    println!(rt; "  the counts that the host keeps\n{table}")?;
    print!(rt; "  the elements that the box keeps\n          ")?;
    for sum in ends.sums.cells() {
        print!(rt; "{:>7}", sum.low())?;
    }
    println!(rt; "")
}

/// Plays the game, and asks both ends this season's questions.
pub fn play(rt: &(impl Print + AllocGlobal)) -> anyhow::Result<()> {
    let mut counts = [7i32; 16];
    let mut sums = [Mod65537::one(); 8];
    let mut counts = Bank::new(&mut counts);
    let mut sums = Bank::new(&mut sums);
    println!(rt;
        "A game on 2 rows and 8 columns, over the residues modulo 65537; the secret point of the box is {POINT}"
    )?;
    let host = host::Listening::open(2, 8, &mut counts)?;
    let verifier = verifier::Listening::open(2, 8, secret_point(POINT), &mut sums)?;
    let mut ends = Ends {
        host,
        counts,
        verifier,
        sums,
    };
    tell(rt, &mut ends, &COUNTED)?;
    tell(rt, &mut ends, &REFUSED)?;
    let ends = ends.seal();
    print_book(rt, "host", ends.host.book())?;
    print_book(rt, "box", ends.verifier.book())?;
    print_banks(rt, &ends)?;
    questions::print(rt, &ends)
}
