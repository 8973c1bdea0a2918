// Whole trials over each field.
use crate::book_words::BookWords;
use crate::boxes::SQUARES;
use crate::element::Shown;
use crate::field_words::FieldWords;
use crate::told_words::ToldWords;
use crate::verdict::Verdict;
use board::{Book, Move};
use field::Field;
use fields::{FieldTask, NamedField};
use play::{Memory, Told, play_trial};
use season::Squares;
use std::io;
use writer::ENOUGH_PAPER;

// The moves of a trial: the three that count, and two that are refused.
const MOVES: [Move; 5] = [
    Move { cell: 0, amount: 3 },
    Move {
        cell: 99,
        amount: 1,
    },
    Move { cell: 8, amount: 1 },
    Move {
        cell: 8,
        amount: -257,
    },
    Move {
        cell: 9,
        amount: -2,
    },
];

// The fields, and the low and the high part of the secret point in each.
const TRIALS: [(NamedField, u32, u32); 4] = [
    (NamedField::Mod65537, 5, 0),
    (NamedField::Mersenne31, 5, 0),
    (NamedField::Mod65537x2, 0, 1),
    (NamedField::Mersenne31x2, 5, 2_147_483_646),
];

// A move that nobody was told yet.
fn untold(moved: Move) -> Told {
    Told {
        moved,
        host: Ok(()),
        verifier: Ok(()),
    }
}

// What both ends answered to the moves, and how they stand after them.
fn print_told(rt: &impl Print, told: &[Told], host: &Book, verifier: &Book) -> io::Result<()> {
    for one in told {
        println!(rt; "    {}", ToldWords(*one))?;
    }
    println!(rt;
        "    {}",
        BookWords {
            end: "host",
            book: host
        }
    )?;
    println!(rt;
        "    {}",
        BookWords {
            end: "box",
            book: verifier
        }
    )
}

// A trial for the squares, at a secret point with these parts.
#[derive(Drop)]
struct Trial<'a, R> {
    rt: &'a R,
    field: NamedField,
    low: u32,
    high: u32,
}

impl<'a, R: Print + AllocGlobal> FieldTask for Trial<'a, R> {
    type Out = anyhow::Result<()>;

    // Plays it from the opening of both ends to the judged sheet, and prints what it comes to, how many points could let a false claim by,
    // and what both ends make of the moves.
    fn run<F: Field>(self) -> anyhow::Result<()> {
        let heap = self.rt.alloc();
        let point = F::element(self.low, self.high).unwrap_or(F::zero());
        let mut counts = [0i32; 16];
        let mut sums = vec![in heap; F::zero(); 8]?;
        let mut tray = vec![in heap; F::zero(); 11]?;
        let mut paper = vec![in heap; 0u8; ENOUGH_PAPER]?;
        let mut memory = Memory {
            counts: &mut counts,
            sums: sums.as_mut_slice(),
            tray: tray.as_mut_slice(),
            paper: paper.as_mut_slice(),
        };
        let mut told = MOVES.map(untold);
        let played = play_trial(2, 8, point, &mut told, &Squares, &mut memory)?;
        let found = played.found;
        let truth = SQUARES;
        let points = u64::from(F::CHARACTERISTIC).saturating_pow(F::DEGREE);
        println!(self.rt;
            "  {}, at the point {}: {}; at most 2 of the {points} points let a false claim by",
            FieldWords(self.field),
            Shown(point),
            Verdict { found, truth }
        )?;
        print_told(self.rt, &told, played.host.book(), played.verifier.book())?;
        Ok(())
    }
}

/// Plays a trial over each named field, and prints what it comes to.
pub fn print(rt: &(impl Print + AllocGlobal)) -> anyhow::Result<()> {
    println!(rt; "Whole trials, for the squares of all counts")?;
    for (field, low, high) in TRIALS {
        let trial = Trial {
            rt,
            field,
            low,
            high,
        };
        field.run(trial)?;
    }
    Ok(())
}
