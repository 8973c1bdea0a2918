// Both ends over banks of the caller's: open and note.
use crate::arithmetic::Arithmetic;
use crate::element::Element;
use crate::front::fill_front;
use crate::game::Game;
use crate::moves::Move;
use crate::refusal::Refusal;
use crate::standing::Standing;
use crate::stop::Stop;

/// Opens a host on a board: a count for each cell, all zero. Refused with 10, 12.
pub fn open_host(
    field: Arithmetic,
    rows: u64,
    columns: u64,
    bank: &mut [i64],
) -> Result<Standing, Refusal> {
    let standing = Standing::open(rows, columns, field.limit)?;
    fill_front(bank, standing.cells(), 0).ok_or(Refusal::BankShort)?;
    Ok(standing)
}

/// Opens a box on a board: an element for each column, all zero. Refused with 10, 12.
pub fn open_verifier(
    field: Arithmetic,
    rows: u64,
    columns: u64,
    bank: &mut [Element],
) -> Result<Standing, Refusal> {
    let standing = Standing::open(rows, columns, field.limit)?;
    fill_front(bank, columns, Element::ZERO).ok_or(Refusal::BankShort)?;
    Ok(standing)
}

/// Tells a host a move: how it stands then. Refused with 12, 1, 2, 3, 13, and nothing changes.
pub fn note_at_host(standing: Standing, bank: &mut [i64], m: Move) -> Result<Standing, Refusal> {
    if (bank.len() as u64) < standing.cells() {
        return Err(Refusal::BankShort);
    }
    standing.test(m)?;
    let count = bank.get_mut(m.cell as usize).ok_or(Refusal::BankShort)?;
    if count.unsigned_abs() > standing.limit {
        return Err(Refusal::CountOutside);
    }
    *count = count.wrapping_add(m.amount);
    Ok(standing.after(m))
}

/// Tells a box a move: its column grows by the amount's image times χ_x at the point, where x is the cell's row.
/// Refused with 12, 1, 2, 3, and nothing changes.
pub fn note_at_verifier(
    game: Game,
    point: Element,
    bank: &mut [Element],
    m: Move,
) -> Result<Standing, Stop> {
    if (bank.len() as u64) < game.at.columns {
        return Err(Stop::from(Refusal::BankShort));
    }
    game.at.test(m)?;
    let (row, column) = game.at.place(m.cell);
    let weight = game
        .basis(point)?
        .get(row)
        .copied()
        .unwrap_or(Element::ZERO);
    let share = game.field.product(game.field.image(m.amount), weight);
    if let Some(sum) = bank.get_mut(column) {
        *sum = game.field.sum(*sum, share);
    }
    Ok(game.at.after(m))
}
