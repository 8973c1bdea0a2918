// Questions of generated games, asked through their own types and through the type of all four.
use crate::inquiry::Inquiry;
use crate::sealed::Sealed;
use crate::stated::Stated;
use board::Tag;
use field::Field;
use reference::Ask;
use report::Table;
use season::Season;
use std::alloc::AllocError;

// A number as the product has it; 0 where that has no room.
fn narrow(n: u64) -> u32 {
    u32::try_from(n).unwrap_or(0)
}

// The same question in the product's type of all four, if it is one of them.
fn mixed(ask: Ask) -> Option<Season> {
    let reference::Tag {
        kind,
        first,
        second,
    } = ask.tag();
    Season::of_tag(Tag {
        kind: narrow(kind),
        first: narrow(first),
        second: narrow(second),
    })
}

// Asks a question of the season through its own type.
fn inquire_plainly<F: Field>(
    table: &mut Table,
    sealed: &mut Sealed<F>,
    season: Season,
    ask: Ask,
    times: u64,
) -> Result<(), AllocError> {
    match season {
        Season::Cell(cell) => Inquiry::new(table, sealed, &cell, ask).inquire(times),
        Season::Goods(goods) => Inquiry::new(table, sealed, &goods, ask).inquire(times),
        Season::Range(range) => Inquiry::new(table, sealed, &range, ask).inquire(times),
        Season::Squares(squares) => Inquiry::new(table, sealed, &squares, ask).inquire(times),
    }
}

/// Asks a question of the season, through its own type or the type of all four, or else one that states its degree.
pub fn inquire_any<F: Field>(
    table: &mut Table,
    sealed: &mut Sealed<F>,
    ask: Ask,
    times: u64,
) -> Result<(), AllocError> {
    match mixed(ask) {
        Some(season) if table.source.dice.one_in(2) => {
            inquire_plainly(table, sealed, season, ask, times)
        }
        Some(season) => Inquiry::new(table, sealed, &season, ask).inquire(times),
        None => {
            let degree = narrow(ask.tag().first);
            Inquiry::new(table, sealed, &Stated { degree }, ask).inquire(times)
        }
    }
}
