// Sheets for the squares on the game's board, of any claim and values.
use board::Grid;
use field::Field;
use fields::Mod65537;
use protocol::terms_of;
use season::Squares;
use std::alloc::Global;
use writer::{ENOUGH_PAPER, write_sheet};

/// The sheet that states a claim and these values.
pub fn sheet_of(heap: Global, claim: i64, values: [u32; 3]) -> anyhow::Result<String> {
    let terms = terms_of::<Mod65537, Squares>(&Squares, Grid::new(2, 8)?);
    let values = values.map(|value| Mod65537::element(value, 0).unwrap_or(Mod65537::zero()));
    let mut paper = vec![in heap; 0u8; ENOUGH_PAPER]?;
    let length = write_sheet(paper.as_mut_slice(), &terms, claim, &values)?;
    paper.truncate(length);
    Ok(String::from_utf8(paper)?)
}
