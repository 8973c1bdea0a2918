// The refusals of memory that is too short, and of counts that no moves come to.
use crate::backward::{BACKWARD, BACKWARD_ASK};
use crate::sealing::seal;
use field::Field;
use inquiry::{Inquiry, Room, Sealed};
use pairs::{HostPair, Listening};
use reference::{Ask, Element, GREATEST_DEGREE, Move, Sheet, Stop};
use report::Table;
use season::Squares;
use std::alloc::AllocError;

// Trays and papers of all lengths around those that the squares need on two rows and eight columns.
const ROOMS: [Room; 6] = [
    Room {
        tray: 11,
        paper: 9216,
    },
    Room {
        tray: 10,
        paper: 9216,
    },
    Room {
        tray: 11,
        paper: 9215,
    },
    Room {
        tray: 10,
        paper: 9215,
    },
    Room { tray: 0, paper: 0 },
    Room {
        tray: 20,
        paper: 9300,
    },
];

// Puts a count into a cell, behind the back of both hosts.
fn set_count<F: Field>(host: &mut HostPair<F>, cell: usize, count: i32) {
    if let Some(own) = host.cells.get_mut(cell) {
        *own = count;
    }
    if let Some(plain) = host.plain.get_mut(cell) {
        *plain = i64::from(count);
    }
}

// Moves at a cell whose count is at the limit or beyond it, and elsewhere.
fn note_at_limit<F: Field>(table: &mut Table, host: &mut HostPair<F>) {
    let limit = i32::try_from(table.source.field.limit).unwrap_or(0);
    let least = limit.saturating_neg();
    for count in [
        limit,
        limit.saturating_add(1),
        least,
        least.saturating_sub(1),
        i32::MIN,
    ] {
        set_count(host, 1, count);
        for cell in [1, 2, 16] {
            let _ = host.note(table, Move { cell, amount: -1 });
        }
    }
    set_count(host, 1, 0);
}

// Answers in rooms that are large enough or not.
fn answer_over<F: Field>(table: &mut Table, sealed: &mut Sealed<F>) -> Result<(), AllocError> {
    for room in ROOMS {
        let _ = Inquiry::new(table, sealed, &Squares, Ask::Squares).compare_answer(room)?;
        let _ = Inquiry::new(table, sealed, &BACKWARD, BACKWARD_ASK).compare_answer(room)?;
    }
    Ok(())
}

// Judges with trays of all lengths around those needed.
fn judge_over<F: Field>(table: &mut Table, sealed: &mut Sealed<F>) -> Result<(), AllocError> {
    for room in 0..5 {
        let _ = Inquiry::new(table, sealed, &Squares, Ask::Squares).compare_judgement(b"", room)?;
        let _ = Inquiry::new(table, sealed, &BACKWARD, BACKWARD_ASK).compare_judgement(b"", room)?;
    }
    Ok(())
}

// Writes as many values as a sheet may have, and one more; with paper enough, and one byte less.
fn write_long<F: Field>(table: &mut Table, sealed: &mut Sealed<F>) -> Result<(), AllocError> {
    let heap = table.source.heap;
    let field = table.source.field;
    let greatest = field.p.saturating_sub(1);
    let high = if field.e == 1 { 0 } else { greatest };
    let element = Element {
        low: greatest,
        high,
    };
    let longest = Sheet {
        claim: i64::MIN,
        values: vec![in heap; element; GREATEST_DEGREE as usize + 1]?,
    };
    let longer = Sheet {
        claim: i64::MAX,
        values: vec![in heap; element; GREATEST_DEGREE as usize + 2]?,
    };
    let mut inquiry = Inquiry::new(table, sealed, &Squares, Ask::Squares);
    for paper in [9216, 9215, 9300] {
        inquiry.compare_writing(&longest, paper)?;
        inquiry.compare_writing(&longer, paper)?;
    }
    Ok(())
}

// Asks both ends, once they are sealed, with banks that are long enough and with banks one short.
fn ask_short<F: Field>(table: &mut Table, sealed: &mut Sealed<F>) -> Result<(), AllocError> {
    answer_over(table, sealed)?;
    judge_over(table, sealed)?;
    write_long(table, sealed)?;
    sealed.drop_last();
    answer_over(table, sealed)?;
    judge_over(table, sealed)?;
    // One count so large that all together are beyond the limit.
    sealed.host.counts.push(i32::MIN)?;
    sealed.host.plain.push(i64::from(i32::MIN))?;
    answer_over(table, sealed)
}

/// Moves, questions and sheets on a board of two rows and eight columns, with memory that is just enough or too short,
/// and with counts at the limit or beyond it.
pub fn play_edges<F: Field>(table: &mut Table) -> Result<(), Stop> {
    table.report.next_game();
    let source = &mut table.source;
    let counts = source.any_counts(16)?;
    let sums = source.any_elements(8)?;
    let point = source.any_element();
    let Some(mut both) = Listening::<F>::open(table, 2, 8, point, counts, sums)? else {
        return Ok(());
    };
    let m = Move { cell: 0, amount: 3 };
    let _ = both.note(table, m);
    note_at_limit(table, &mut both.host);
    both.host.note_short(table, m);
    both.verifier.note_short(table, m);
    ask_short(table, &mut seal(both))?;
    Ok(())
}
